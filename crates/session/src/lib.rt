// A session: bits are proposed in trials, and what stands is read as a free count and as a pattern.
#![tactic(auto)]

mod counter;
mod in_force;
mod opening;
mod readings;
mod table;
mod trial;

pub use counter::EquationCounter;
pub use opening::open_session;
pub use readings::{free_count, read_pattern};
pub use table::EquationTable;
pub use trial::Trial;
