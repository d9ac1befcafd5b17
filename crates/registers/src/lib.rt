// The two registers, their parts, and the rules by which these are put together.
//
// Taps, links and inlets are gathered line by line, each by the rule of its line. A register is wired from inlets and from the part that turns
// its cells, taps or links, of one size, and is a linear machine from then on.
#![tactic(auto)]

mod galois;
mod inlets;
mod links;
mod register;
mod ring;
mod size;
mod taps;
mod turns;

pub use galois::GaloisRegister;
pub use inlets::Inlets;
pub use links::Links;
pub use register::Register;
pub use ring::RingGenerator;
pub use taps::Taps;
pub use turns::Turns;

// A link of a ring generator: it adds the cell `from` into the next value of the cell `to`.
#[derive(Clone, Copy, PartialEq, Eq, Default)]
pub struct Link {
    pub from: usize,
    pub to: usize,
}
