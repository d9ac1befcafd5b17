ghost use Rattle.std.specs.Prelude.{◌≡◌};
ghost use Rattle.machine.specs.Linear.{at_reset};
ghost use Rattle.refusals.specs.Chains.{ok_map};
ghost use Rattle.registers.specs.Registers.{wired};
ghost use Rattle.registers.specs.Views.{inlets_read, register_state};

use crate::inlets::Inlets;
use crate::register::Register;
use crate::turns::Turns;
use refusals::Refusal;

impl<T: Turns + Drop> Register<T> {
    // A register at reset, from parts of one size with at least one inlet.
    pub fn wired(turning: T, inlets: Inlets) -> Result<Register<T>, Refusal>
        ensures { ok_map register_state result ≡ ok_map at_reset (wired (T.size turning) (T.turned turning) (inlets_read inlets)) }
    {
        if turning.size() != inlets.size.cells || inlets.cells.as_slice().is_empty() {
            return Err(Refusal::OutOfRange);
        }
        Ok(Register {
            cells: 0,
            turning,
            inlets,
        })
    }
}
