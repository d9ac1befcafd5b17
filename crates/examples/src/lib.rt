// Worked examples: each is computed by the checker from the definitions that the contracts cite.
#![tactic(auto)]

ghost use Rattle.std.specs.Prelude.{◌≡◌};
ghost use Rattle.machine.specs.Linear.{at_reset};
ghost use Rattle.refusals.specs.Chains.{ok_map};
ghost use Rattle.registers.specs.Views.{register_state};
ghost use Rattle.examples.specs.Worked.{WorkedExamples, ring_of_four};

use refusals::Refusal;
use registers::{Link, RingGenerator};

pub fn worked_examples()
    ensures { WorkedExamples }
{}

// The ring of which most of the examples tell, to be shifted: four cells, a link from cell 0 to cell 3, and channel 0 into cell 0.
pub fn ring_of_four() -> Result<RingGenerator, Refusal>
    ensures { ok_map register_state result ≡ ok_map at_reset ring_of_four }
{
    RingGenerator::new(4, &[Link { from: 0, to: 3 }], &[0])
}
