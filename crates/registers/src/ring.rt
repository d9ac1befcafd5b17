ghost use Rattle.std.specs.Prelude.{◌≡◌};
ghost use Rattle.machine.specs.Linear.{at_reset};
ghost use Rattle.refusals.specs.Chains.{ok_map};
ghost use Rattle.registers.specs.Allowed.{RingExactly};
ghost use Rattle.registers.specs.Registers.{ring_from};
ghost use Rattle.registers.specs.Views.{register_state};

use crate::Link;
use crate::inlets::Inlets;
use crate::links::Links;
use crate::register::Register;
use refusals::{Refusal, gathered};

// A ring generator: links turn its cells.
pub type RingGenerator = Register<Links>;

impl RingGenerator {
    // A register at reset, from its lines: the refusal is the first that reading them one by one meets, and there is one exactly
    // where the lines are not allowed.
    //
    // Each register has a `new` of its own, with the theorem of its own lines. One for both was tried: `Turns` would have to say what a part has
    // read, a ghost type of `Gathers`, and a trait has those of a supertrait at hand in its laws alone.
    #[tactic(auto, using(crate::proofs::Exactly::ring_exactly))]
    pub fn new(size: usize, links: &[Link], inlets: &[usize]) -> Result<RingGenerator, Refusal>
        ensures made { ok_map register_state result ≡ ok_map at_reset (ring_from size links.now inlets.now) }
        ensures exactly { RingExactly size links.now inlets.now }
    {
        let turning = gathered(Links::new(size)?, links)?;
        let fed = gathered(Inlets::new(size)?, inlets)?;
        Register::wired(turning, fed)
    }
}
