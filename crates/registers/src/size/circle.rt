// The circle of a register's cells.
ghost use Rattle.std.specs.Prelude.{◌≡◌, ◌-◌, ◌<◌};
ghost use Rattle.bits.specs.Words.{bit_of, word_of};
ghost use Rattle.refusals.specs.Chains.{ok_map};
ghost use Rattle.registers.specs.Registers.{before};
ghost use Rattle.registers.specs.Rules.{sized, next_cell};

use crate::size::Size;
use bits::{has, low};
use refusals::Refusal;

impl TryFrom<usize> for Size {
    type Error = Refusal;

    ghost try_from_gives = { λ cells result. ok_map (λ size. size.cells) result ≡ sized cells cells };

    fn try_from(cells: usize) -> Result<Size, Refusal> {
        if !(2..=64).contains(&cells) {
            return Err(Refusal::OutOfRange);
        }
        Ok(Size { cells })
    }
}

impl Size {
    // The cell after another.
    pub(crate) fn next(self, cell: usize) -> usize
        requires { cell < self.cells }
        ensures { result ≡ next_cell self.cells cell }
    {
        if cell + 1 == self.cells { 0 } else { cell + 1 }
    }

    // The last cell.
    pub(crate) fn last(self, word: u64) -> bool
        ensures { result ≡ bit_of word (self.cells - 1) }
    {
        has(word, self.cells - 1)
    }

    // Each cell takes the one before it.
    pub(crate) fn circled(self, word: u64) -> u64
        ensures { result ≡ word_of self.cells (λ i. bit_of word (before self.cells i)) }
    {
        low(word, self.cells - 1) << 1 | self.last(word) as u64
    }
}
