ghost use Rattle.std.specs.Prelude.{◌≡◌};
ghost use Rattle.std.specs.Bool.{beq};
ghost use Rattle.scan.specs.Memory.{chains_in};

use bits::has;

// A care bit: a position of a chain is to have a value.
#[derive(Clone, Copy)]
pub struct CareBit {
    pub chain: usize,
    pub position: usize,
    pub value: bool,
}

impl CareBit {
    // Whether chain memory has the bit. A position past the memory and a chain from 64 on count as 0.
    pub fn is_in(self, chains: &[u64]) -> bool
        ensures { result ≡ beq (chains_in chains.now self.position self.chain) self.value }
    {
        let word = chains.get(self.position).copied().unwrap_or(0);
        has(word, self.chain) == self.value
    }
}
