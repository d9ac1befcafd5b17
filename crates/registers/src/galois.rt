ghost use Rattle.std.specs.Prelude.{◌≡◌};
ghost use Rattle.machine.specs.Linear.{at_reset};
ghost use Rattle.refusals.specs.Chains.{ok_map};
ghost use Rattle.registers.specs.Allowed.{GaloisExactly};
ghost use Rattle.registers.specs.Registers.{galois_from};
ghost use Rattle.registers.specs.Views.{register_state};

use crate::inlets::Inlets;
use crate::register::Register;
use crate::taps::Taps;
use refusals::{Refusal, gathered};

// A Galois register (LFSR): taps turn its cells.
pub type GaloisRegister = Register<Taps>;

impl GaloisRegister {
    // A register at reset, from its lines: the refusal is the first that reading them one by one meets, and there is one exactly
    // where the lines are not allowed.
    //
    // Each register has a `new` of its own, with the theorem of its own lines. One for both was tried: `Turns` would have to say what a part has
    // read, a ghost type of `Gathers`, and a trait has those of a supertrait at hand in its laws alone.
    #[tactic(auto, using(crate::proofs::Exactly::galois_exactly))]
    pub fn new(size: usize, taps: &[usize], inlets: &[usize]) -> Result<GaloisRegister, Refusal>
        ensures made { ok_map register_state result ≡ ok_map at_reset (galois_from size taps.now inlets.now) }
        ensures exactly { GaloisExactly size taps.now inlets.now }
    {
        let turning = gathered(Taps::new(size)?, taps)?;
        let fed = gathered(Inlets::new(size)?, inlets)?;
        Register::wired(turning, fed)
    }
}
