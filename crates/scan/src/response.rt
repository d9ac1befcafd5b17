ghost use Rattle.std.specs.Prelude.{◌≡◌};
ghost use Rattle.refusals.specs.Chains.{ok_map, left_by};
ghost use Rattle.scan.specs.Responses.{short, capturing, unloading};

use bits::low;
use refusals::{HandedBack, Refusal};

// A run that is loaded: it can be captured.
#[derive(Drop)]
pub struct Loaded {
    pub(crate) positions: usize,
    pub(crate) chains: usize,
}

// A run whose response is captured: it can be unloaded.
#[derive(Drop)]
pub struct Captured {
    pub(crate) loaded: Loaded,
    pub(crate) unloaded: usize,
}

impl Loaded {
    // Whether the values or the unknown marks, which come as two lists of words, have fewer than there are positions.
    fn lacks(&self, values: &[u64], unknowns: &[u64]) -> bool
        ensures { result ≡ short self.now.positions values.now unknowns.now }
    {
        values.len() < self.positions || unknowns.len() < self.positions
    }

    // Captures a response, a word of values and a word of unknown marks for each position; a refusal hands the run back.
    pub fn capture(self, values: &[u64], unknowns: &[u64]) -> Result<Captured, HandedBack<Loaded>>
        ensures { result ≡ capturing self values.now unknowns.now }
    {
        if self.lacks(values, unknowns) {
            return Err(HandedBack {
                value: self,
                refusal: Refusal::MemoryTooShort,
            });
        }
        Ok(Captured {
            loaded: self,
            unloaded: 0,
        })
    }
}

impl Captured {
    // One unload cycle, which answers the values and the unknown marks of the position that leaves: the highest first. A refusal leaves the
    // run as it was. The pair is a tuple of two words: whoever unloads takes it apart at once.
    pub fn unload(&mut self, values: &[u64], unknowns: &[u64]) -> Result<(u64, u64), Refusal>
        ensures answer { result ≡ ok_map (λ o. o.0) (unloading self.old values.now unknowns.now) }
        ensures after { self.new ≡ left_by self.old (ok_map (λ o. o.1) (unloading self.old values.now unknowns.now)) }
    {
        if self.loaded.lacks(values, unknowns) {
            return Err(Refusal::MemoryTooShort);
        }
        if self.unloaded >= self.loaded.positions {
            return Err(Refusal::NoCycleLeft);
        }
        self.unloaded += 1;
        let position = self.loaded.positions - self.unloaded;
        let unknown = unknowns[position];
        let known = values[position] & !unknown;
        Ok((
            low(known, self.loaded.chains),
            low(unknown, self.loaded.chains),
        ))
    }
}
