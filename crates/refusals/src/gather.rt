// Parts that are gathered line by line.
ghost use Rattle.std.specs.Prelude.{◌≡◌, Result};
ghost use Rattle.refusals.specs.declared.Refusal.{Refusal as Reason};
ghost use Rattle.refusals.specs.Chains.{ok_map, reading, answer_of, left_by};

use crate::Refusal;

// A part that takes one line after another. It is known by what was read so far, and by what a line makes of that.
pub trait Gathers {
    type Line: Copy;

    ghost Read: { Type 0 };

    ghost read: { Self → Read };

    ghost takes: { Read → Self.Line → Result Read Reason };

    // Takes one line more, or refuses it and stays as it is.
    fn add(&mut self, line: Self::Line) -> Result<(), Refusal>
        ensures answer { result ≡ answer_of (takes (read self.old) line) }
        ensures after { read self.new ≡ left_by (read self.old) (takes (read self.old) line) };
}

// A part with the lines of a list, or the first refusal.
pub fn gathered<G: Gathers + Drop>(mut part: G, lines: &[G::Line]) -> Result<G, Refusal>
    ensures { ok_map G.Gathers.read result ≡ reading G.Gathers.takes (G.Gathers.read part) lines.now }
{
    for line in lines {
        part.add(*line)?;
    }
    Ok(part)
}
