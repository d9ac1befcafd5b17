ghost use Rattle.std.specs.Prelude.{◌≡◌};
ghost use Rattle.session.specs.Fits.{fitting_at, unopened};

use crate::table::EquationTable;
use equations::Equation;

impl EquationTable {
    // A table that was never opened: nothing is written, and there are no channels, outlets or variables.
    pub fn new() -> EquationTable
        ensures written { result.written ≡ 0 }
        ensures fit { fitting_at result.fit ≡ unopened }
    {
        EquationTable {
            rows: [Equation::default(); 256],
            written: 0,
            fit: None,
        }
    }
}
