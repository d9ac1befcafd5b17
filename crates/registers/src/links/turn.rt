ghost use Rattle.lists.specs.Listed.{listed};
ghost use Rattle.registers.specs.Laws.{ring_plus};
ghost use Rattle.registers.specs.Registers.{ring_turn};

use crate::links::Links;
use crate::turns::Turns;

impl Turns for Links {
    ghost size = { λ t. t.size.cells };

    ghost turned = { λ t. ring_turn t.size.cells (listed t.links) };

    ghost some = { λ t. t.size.some };

    ghost few = { λ t. t.size.few };

    ghost sums = { λ t. ring_plus t.size.cells (listed t.links) };

    fn size(&self) -> usize {
        self.size.cells
    }

    fn turn(&self, cells: u64) -> u64 {
        let mut moved = self.size.circled(cells);
        let links = self.links.as_slice();
        for link in links {
            moved ^= (cells >> link.from & 1) << link.to;
        }
        moved
    }
}
