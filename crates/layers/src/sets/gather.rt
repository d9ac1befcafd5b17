ghost use Rattle.std.specs.Prelude.{◌≡◌, ℕ, List, []};
ghost use Rattle.layers.specs.Shifter.{set_line};
ghost use Rattle.layers.specs.Views.{sets_read};

use crate::sets::OutletSets;
use lists::ShortList;
use refusals::{Gathers, Refusal};

impl OutletSets {
    // No outlet yet.
    pub fn new() -> OutletSets
        ensures { sets_read result ≡ [] }
    {
        OutletSets {
            words: ShortList::new(),
        }
    }
}

impl Gathers for OutletSets {
    type Line = u64;

    ghost Read = { List ℕ };

    ghost read = { sets_read };

    ghost takes = { set_line };

    // The set of one outlet more.
    fn add(&mut self, set: u64) -> Result<(), Refusal> {
        if set == 0 {
            return Err(Refusal::OutOfRange);
        }
        self.words.push(set).map_err(|_| Refusal::OutOfRange)
    }
}
