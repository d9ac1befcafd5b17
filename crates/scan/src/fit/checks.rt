ghost use Rattle.std.specs.Prelude.{◌≡◌, Ok};
ghost use Rattle.refusals.specs.Chains.{ok_map};
ghost use Rattle.scan.specs.Frames.{in_limits, in_span};
ghost use Rattle.scan.specs.Fits.{fitting, suited};
ghost use Rattle.scan.specs.Views.{fitting_of};

use crate::fit::Fit;
use crate::frame::Frame;
use machine::Machine;
use refusals::Refusal;

impl Fit {
    // Checks a frame against a machine: its limits, then how many bits the channels take in it.
    pub fn of<M: Machine>(machine: &M, frame: Frame) -> Result<Fit, Refusal>
        ensures { ok_map fitting_of result ≡ in_limits frame (in_span (M.meaning machine.now).channels frame (Ok (fitting (M.meaning machine.now) frame))) }
    {
        let channels = machine.channels();
        frame.check(channels)?;
        Ok(Fit {
            frame,
            channels,
            outlets: machine.outlets(),
        })
    }

    // Whether a machine has these channels and outlets.
    pub fn suits<M: Machine>(self, machine: &M) -> bool
        ensures { result ≡ suited (M.meaning machine.now) (fitting_of self) }
    {
        machine.channels() == self.channels && machine.outlets() == self.outlets
    }
}
