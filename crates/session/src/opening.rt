ghost use Rattle.std.specs.Prelude.{◌≡◌, true, [], is_ok, if◌then◌else◌};
ghost use Rattle.bits.specs.Rows.{zeros};
ghost use Rattle.refusals.specs.Chains.{answer_of, left_by};
ghost use Rattle.session.specs.Dialogues.{EveryListIsAnsweredTruly};
ghost use Rattle.session.specs.Sessions.{opening, Stands};
ghost use Rattle.session.specs.Views.{session_of};

use crate::counter::EquationCounter;
use crate::table::EquationTable;
use machine::Machine;
use refusals::Refusal;
use scan::{Fit, Frame};

// Opens a session on a machine: it is reset, nothing is written, and no bit stands. A refusal leaves all as it was.
//
// `lists` is the promise for all that comes after: every list of calls on this session, of whatever length and order, is answered truly.
pub fn open_session<M: Machine>(
    machine: &mut M,
    table: &mut EquationTable,
    counter: &mut EquationCounter,
    frame: Frame,
) -> Result<(), Refusal>
    ensures same { M.meaning machine.new ≡ M.meaning machine.old }
    ensures cells { M.cells machine.new ≡ (if is_ok result then zeros else M.cells machine.old) }
    ensures answer { result ≡ answer_of (opening (M.meaning machine.old) frame (session_of table.old counter.old)) }
    ensures after { session_of table.new counter.new ≡ left_by (session_of table.old counter.old) (opening (M.meaning machine.old) frame (session_of table.old counter.old)) }
    ensures stands { is_ok result ≡ true → Stands (M.meaning machine.old) frame (session_of table.new counter.new) [] }
    ensures lists { is_ok result ≡ true → EveryListIsAnsweredTruly (M.meaning machine.old) frame (session_of table.new counter.new) }
{
    let fit = Fit::of(machine, frame)?;
    machine.reset();
    table.clear(fit);
    counter.count = 0;
    Ok(())
}
