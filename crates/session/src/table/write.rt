ghost use Rattle.std.specs.Prelude.{◌≡◌, ◌+◌, ◌≤◌, true, slice_set};
ghost use Rattle.equations.specs.Equations.{lead_of};
ghost use Rattle.equations.specs.Systems.{is_below, ClearOf};
ghost use Rattle.session.specs.Sessions.{size};
ghost use Rattle.session.specs.Views.{session_at};

use crate::table::EquationTable;
use equations::Equation;

impl EquationTable {
    // Lends itself the row after the first `count`, and writes an equation into it in place; it is then the last written.
    pub(crate) fn write(&mut self, count: usize, equation: Equation)
        requires written { count ≤ self.old.written }
        requires lead { is_below (size (session_at self.old count)) (lead_of equation) ≡ true }
        requires clear { ClearOf self.old.rows count equation }
        ensures rows { self.new.rows ≡ slice_set self.old.rows count equation }
        ensures written { self.new.written ≡ count + 1 }
        ensures fit { self.new.fit ≡ self.old.fit }
    {
        let row = &mut self.rows[count];
        *row = equation;
        self.written = count + 1;
    }
}
