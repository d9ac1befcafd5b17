ghost use Rattle.std.specs.Prelude.{◌≡◌};
ghost use Rattle.refusals.specs.Chains.{ok_map};
ghost use Rattle.layers.specs.Shifter.{some_outlet, outlets_from, ShifterExactly, shifter_over};
ghost use Rattle.layers.specs.Views.{sets_read, shifter_parts};

use crate::sets::OutletSets;
use crate::shifter::PhaseShifter;
use refusals::{HandedBack, Refusal, gathered};

impl<M> PhaseShifter<M> {
    // A shifter over a machine; a refusal hands the machine back.
    pub fn over(below: M, sets: OutletSets) -> Result<PhaseShifter<M>, HandedBack<M>>
        ensures { ok_map shifter_parts result ≡ shifter_over below (some_outlet (sets_read sets)) }
    {
        if sets.words.as_slice().is_empty() {
            return Err(HandedBack {
                value: below,
                refusal: Refusal::OutOfRange,
            });
        }
        Ok(PhaseShifter { below, sets })
    }

    // A shifter over a machine, from the set of each outlet; a refusal hands the machine back, and there is one exactly where the sets are
    // not allowed.
    #[tactic(auto, using(crate::proofs::Exactly::shifter_exactly))]
    pub fn new(below: M, sets: &[u64]) -> Result<PhaseShifter<M>, HandedBack<M>>
        ensures made { ok_map shifter_parts result ≡ shifter_over below (outlets_from sets.now) }
        ensures exactly { ShifterExactly sets.now }
    {
        // Both ways out move the machine, so `map_err` with a `?` cannot take it.
        match gathered(OutletSets::new(), sets) {
            Ok(sets) => PhaseShifter::over(below, sets),
            Err(refusal) => Err(HandedBack {
                value: below,
                refusal,
            }),
        }
    }

    // The machine below. Each layer says this itself: nothing is generic over layers, so a trait of it would have no caller.
    pub fn below(&self) -> &M
        ensures { result.now ≡ self.now.below }
    {
        &self.below
    }
}
