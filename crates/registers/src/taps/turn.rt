ghost use Rattle.bits.specs.Words.{bit_of};
ghost use Rattle.registers.specs.Laws.{galois_plus};
ghost use Rattle.registers.specs.Registers.{galois_turn};

use crate::taps::Taps;
use crate::turns::Turns;

impl Turns for Taps {
    ghost size = { λ t. t.size.cells };

    ghost turned = { λ t. galois_turn t.size.cells (bit_of t.set) };

    ghost some = { λ t. t.size.some };

    ghost few = { λ t. t.size.few };

    ghost sums = { λ t. galois_plus t.size.cells (bit_of t.set) };

    fn size(&self) -> usize {
        self.size.cells
    }

    fn turn(&self, cells: u64) -> u64 {
        let moved = self.size.circled(cells);
        if self.size.last(cells) {
            moved ^ self.set
        } else {
            moved
        }
    }
}
