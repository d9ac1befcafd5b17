// Frames, scan chains and test runs: simulated chains are loaded, a response is captured and unloaded.
//
// A frame that was checked against a machine is a `Fit`.
//
// Data flows so: words go through the machine, whose outlets enter the chains (`Loading`); once all cycles are done the run is `Loaded`; a
// response of values and unknown marks makes it `Captured`, and is unloaded position by position.
#![tactic(auto)]

mod care;
mod chains;
mod fit;
mod frame;
mod loading;
mod response;

pub use care::CareBit;
pub use fit::Fit;
pub use frame::{Frame, SHIFT_LIMIT, SPAN_LIMIT, WARMUP_LIMIT};
pub use loading::Loading;
pub use response::{Captured, Loaded};
