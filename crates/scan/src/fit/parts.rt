ghost use Rattle.std.specs.Prelude.{◌≡◌};
ghost use Rattle.scan.specs.Views.{fitting_of};

use crate::fit::Fit;
use crate::frame::Frame;

impl Fit {
    // The frame that was checked.
    pub fn frame(self) -> Frame
        ensures { result ≡ (fitting_of self).frame }
    {
        self.frame
    }

    // The channels of the machine.
    pub fn channels(self) -> usize
        ensures { result ≡ (fitting_of self).channels }
    {
        self.channels
    }

    // The outlets of the machine.
    pub fn outlets(self) -> usize
        ensures { result ≡ (fitting_of self).outlets }
    {
        self.outlets
    }
}
