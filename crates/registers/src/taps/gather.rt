ghost use Rattle.std.specs.Prelude.{◌≡◌};
ghost use Rattle.refusals.specs.Chains.{ok_map};
ghost use Rattle.registers.specs.Rules.{TapsRead, no_taps, tap_line};
ghost use Rattle.registers.specs.Views.{taps_read};

use crate::size::Size;
use crate::taps::Taps;
use bits::has;
use refusals::{Gathers, Refusal};

impl Taps {
    // No tap yet, for a register of that size. Each part says itself how it is empty, as `Inlets` does.
    pub fn new(size: usize) -> Result<Taps, Refusal>
        ensures { ok_map taps_read result ≡ no_taps size }
    {
        let size = Size::try_from(size)?;
        Ok(Taps { size, set: 0 })
    }
}

impl Gathers for Taps {
    type Line = usize;

    ghost Read = { TapsRead };

    ghost read = { taps_read };

    ghost takes = { tap_line };

    // One tap more.
    fn add(&mut self, tap: usize) -> Result<(), Refusal> {
        if !(1..self.size.cells).contains(&tap) {
            return Err(Refusal::OutOfRange);
        }
        if has(self.set, tap) {
            return Err(Refusal::Repeated);
        }
        self.set |= 1u64 << tap;
        Ok(())
    }
}
