ghost use Rattle.std.specs.Prelude.{ℕ, ◌<◌};
ghost use Rattle.std.specs.List.{All};
ghost use Rattle.lists.specs.Listed.{listed};

pub mod gather;
mod mix;

use lists::ShortList;

// For each outlet of a phase shifter the outlets below that it sums, outlet j below in bit j.
#[derive(Clone, Copy)]
pub struct OutletSets {
    pub(crate) words: ShortList<u64, 64>,
    ghost filled: { All (λ (set : ℕ). 0 < set) (listed words) },
}
