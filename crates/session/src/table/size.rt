ghost use Rattle.std.specs.Prelude.{◌≡◌};
ghost use Rattle.session.specs.Fits.{fitting_at};

use crate::table::EquationTable;
use scan::Frame;

impl EquationTable {
    // The frame of the opening; before any, one of no cycles, which is what a table has always told then.
    pub fn frame(&self) -> Frame
        ensures { result ≡ (fitting_at self.now.fit).frame }
    {
        let unopened = Frame {
            warmup: 0,
            shifts: 0,
        };
        self.fit.map_or(unopened, |fit| fit.frame())
    }

    // The outlets of the machine at the opening, which are the chains; before any opening, 0, for the same reason.
    pub fn chains(&self) -> usize
        ensures { result ≡ (fitting_at self.now.fit).outlets }
    {
        self.fit.map_or(0, |fit| fit.outlets())
    }
}
