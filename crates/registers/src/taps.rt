ghost use Rattle.std.specs.Prelude.{◌≡◌, ◌^◌, ◌<◌, false};
ghost use Rattle.bits.specs.Words.{bit_of};

pub mod gather;
pub mod turn;

use crate::size::Size;

// Which cells of a Galois register are tapped, cell i in bit i: cells 1 to size - 1 can be.
#[derive(Clone, Copy)]
pub struct Taps {
    pub(crate) size: Size,
    pub(crate) set: u64,
    ghost within: { set < 2 ^ size.cells },
    ghost apart: { bit_of set 0 ≡ false },
}
