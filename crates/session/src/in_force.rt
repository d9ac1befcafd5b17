ghost use Rattle.std.specs.Prelude.{◌≤◌, length};
ghost use Rattle.equations.specs.Systems.{Led, Apart, Clear};

mod free;
mod reduce;
mod solve;
mod weigh;

use equations::Equation;

// The equations of a table that are in force, lent, and the number of variables: each has a lead, its highest-numbered variable, no two share a
// lead, and none has the lead of one before it among its variables.
#[derive(Clone, Copy)]
pub(crate) struct InForce<'a> {
    pub(crate) rows: &'a [Equation],
    pub(crate) variables: usize,
    ghost few: { variables ≤ 256 },
    ghost led: { Led variables rows.now (length rows.now) },
    ghost apart: { Apart rows.now (length rows.now) },
    ghost clear: { Clear rows.now (length rows.now) },
}
