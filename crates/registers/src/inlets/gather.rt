ghost use Rattle.std.specs.Prelude.{◌≡◌, length};
ghost use Rattle.refusals.specs.Chains.{ok_map};
ghost use Rattle.registers.specs.Rules.{InletsRead, no_inlets, inlet_line};
ghost use Rattle.registers.specs.Views.{inlets_read};

use crate::inlets::Inlets;
use crate::size::Size;
use lists::ShortList;
use refusals::{Gathers, Refusal};

impl Inlets {
    // No inlet yet, for a register of that size. Each part says itself how it is empty: a maker for all would take that as a closure.
    pub fn new(size: usize) -> Result<Inlets, Refusal>
        ensures { ok_map inlets_read result ≡ no_inlets size }
    {
        let size = Size::try_from(size)?;
        let cells = ShortList::new();
        Ok(Inlets { size, cells })
    }

    // How many channels there are.
    pub(crate) fn channels(&self) -> usize
        ensures { result ≡ length (inlets_read self.now).into }
    {
        self.cells.len()
    }
}

impl Gathers for Inlets {
    type Line = usize;

    ghost Read = { InletsRead };

    ghost read = { inlets_read };

    ghost takes = { inlet_line };

    // One inlet more, of the next channel into the cell.
    fn add(&mut self, cell: usize) -> Result<(), Refusal> {
        if cell >= self.size.cells {
            return Err(Refusal::OutOfRange);
        }
        self.cells.push(cell as u8).map_err(|_| Refusal::OutOfRange)
    }
}
