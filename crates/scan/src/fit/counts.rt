ghost use Rattle.std.specs.Prelude.{◌≡◌};
ghost use Rattle.scan.specs.Frames.{cycles, variables};
ghost use Rattle.scan.specs.Views.{fitting_of};

use crate::fit::Fit;

impl Fit {
    // All cycles of the frame.
    pub fn cycles(self) -> usize
        ensures { result ≡ cycles (fitting_of self).frame }
    {
        self.frame.warmup + self.frame.shifts
    }

    // The bits that the channels take in all cycles.
    pub fn variables(self) -> usize
        ensures { result ≡ variables (fitting_of self).channels (fitting_of self).frame }
    {
        self.channels * self.cycles()
    }
}
