ghost use Rattle.std.specs.Prelude.{◌≡◌, ◌≤◌, length};
ghost use Rattle.equations.specs.Systems.{Led, Apart, Clear};
ghost use Rattle.scan.specs.Frames.{variables};
ghost use Rattle.session.specs.Fits.{fitting_at};

mod clear;
mod in_force;
mod make;
mod size;
mod write;

use equations::Equation;
use scan::Fit;

// Room for 256 equations, and the fit of the opening, or None before any. Of the rows the first `written` hold equations: each has a lead, its
// highest-numbered variable, no two share a lead, and none has the lead of one before it among its variables. An array with a number beside it,
// and no list that grows: rows that a trial let go of stay, and the row after those in force is lent to be written in place.
#[derive(Drop)]
pub struct EquationTable {
    pub(crate) rows: [Equation; 256],
    pub(crate) written: usize,
    pub(crate) fit: Option<Fit>,
    ghost long: { length rows ≡ 256 },
    ghost room: { written ≤ 256 },
    ghost led: { Led (variables (fitting_at fit).channels (fitting_at fit).frame) rows written },
    ghost apart: { Apart rows written },
    ghost clear: { Clear rows written },
}
