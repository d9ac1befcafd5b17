ghost use Rattle.std.specs.Prelude.{◌≤◌};
ghost use Rattle.scan.specs.Frames.{variables};

use crate::frame::Frame;

mod checks;
mod counts;
mod parts;

// A frame that was checked against a machine, beside the machine's channels and outlets.
#[derive(Clone, Copy)]
pub struct Fit {
    pub(crate) frame: Frame,
    pub(crate) channels: usize,
    pub(crate) outlets: usize,
    ghost short_warmup: { frame.warmup ≤ 64 },
    ghost some_shifts: { 1 ≤ frame.shifts },
    ghost short_shifts: { frame.shifts ≤ 256 },
    ghost few: { variables channels frame ≤ 256 },
}
