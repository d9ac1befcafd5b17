ghost use Rattle.std.specs.Prelude.{ℕ, ◌<◌, length, ◌≢◌, slice_index_or};
ghost use Rattle.std.specs.List.{All};
ghost use Rattle.lists.specs.Listed.{listed};
ghost use Rattle.registers.specs.Rules.{Lawful, no_link};

pub mod gather;
pub mod turn;

use crate::Link;
use crate::size::Size;
use lists::ShortList;

// The links of a ring generator, 16 at most.
#[derive(Clone, Copy)]
pub struct Links {
    pub(crate) size: Size,
    pub(crate) links: ShortList<Link, 16>,
    ghost lawful: { All (Lawful size.cells) (listed links) },
    ghost once: { (j k : ℕ) → j < k → k < length (listed links) → slice_index_or (listed links) j no_link ≢ slice_index_or (listed links) k no_link },
}
