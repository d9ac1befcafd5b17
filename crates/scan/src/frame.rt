ghost use Rattle.std.specs.Prelude.{◌≡◌, Ok};
ghost use Rattle.scan.specs.Frames.{in_limits, in_span};

use refusals::Refusal;

// The most warm-up cycles of a frame, and the most shift cycles.
pub const WARMUP_LIMIT: usize = 64;

pub const SHIFT_LIMIT: usize = 256;

// The most bits that the channels of a machine may take in a frame.
pub const SPAN_LIMIT: usize = 256;

// A frame: warm-up cycles, 0 to 64, then shift cycles, 1 to 256. Each shift cycle fills one position of every chain. A frame may hold any
// numbers; the calls that take one check it.
#[derive(Clone, Copy)]
pub struct Frame {
    pub warmup: usize,
    pub shifts: usize,
}

impl Frame {
    // Whether the numbers of cycles are within their limits.
    pub fn check_cycles(self) -> Result<(), Refusal>
        ensures { result ≡ in_limits self (Ok tt) }
    {
        if self.warmup > WARMUP_LIMIT || !(1..=SHIFT_LIMIT).contains(&self.shifts) {
            return Err(Refusal::OutOfRange);
        }
        Ok(())
    }

    // Whether a machine with so many channels can be run by the frame.
    pub fn check(self, channels: usize) -> Result<(), Refusal>
        ensures { result ≡ in_limits self (in_span channels self (Ok tt)) }
    {
        self.check_cycles()?;
        if channels.saturating_mul(self.warmup + self.shifts) > SPAN_LIMIT {
            return Err(Refusal::TooMany);
        }
        Ok(())
    }
}
