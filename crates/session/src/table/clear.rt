ghost use Rattle.std.specs.Prelude.{◌≡◌, Some};

use crate::table::EquationTable;
use scan::Fit;

impl EquationTable {
    // Nothing is written; the fit is that of the opening.
    pub(crate) fn clear(&mut self, fit: Fit)
        ensures rows { self.new.rows ≡ self.old.rows }
        ensures written { self.new.written ≡ 0 }
        ensures fit { self.new.fit ≡ Some fit }
    {
        self.written = 0;
        self.fit = Some(fit);
    }
}
