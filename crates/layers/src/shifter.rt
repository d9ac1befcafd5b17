ghost use Rattle.std.specs.Prelude.{◌≤◌, length};
ghost use Rattle.lists.specs.Listed.{listed};

use crate::sets::OutletSets;

mod make;
pub mod reads;

// A phase shifter: each of its outlets is the sum of a set of outlets below.
#[derive(Drop)]
pub struct PhaseShifter<M> {
    below: M,
    sets: OutletSets,
    ghost some: { 1 ≤ length (listed sets.words) },
}
