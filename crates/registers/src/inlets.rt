ghost use Rattle.std.specs.Prelude.{◌<◌};
ghost use Rattle.std.specs.List.{All};
ghost use Rattle.lists.specs.Listed.{listed};

mod feed;
pub mod gather;

use crate::size::Size;
use lists::ShortList;

// The cell that each channel of a register feeds, channel by channel, 64 at most.
#[derive(Clone, Copy)]
pub struct Inlets {
    pub(crate) size: Size,
    pub(crate) cells: ShortList<u8, 64>,
    ghost inside: { All (λ cell. cell < size.cells) (listed cells) },
}
