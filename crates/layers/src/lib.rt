// Layers that stand over any linear machine, and are machines themselves: a phase shifter and a delay.
#![tactic(auto)]

mod delay;
mod sets;
mod shifter;

pub use delay::Delay;
pub use sets::OutletSets;
pub use shifter::PhaseShifter;
