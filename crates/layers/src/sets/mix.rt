ghost use Rattle.std.specs.Prelude.{◌≡◌, length};
ghost use Rattle.bits.specs.Words.{bit_of, word_of};
ghost use Rattle.layers.specs.Shifter.{mixed};
ghost use Rattle.layers.specs.Views.{sets_read};

use crate::sets::OutletSets;
use bits::parity;

impl OutletSets {
    // The sum that each set takes of a word's bits. A word of digits is built likewise; one loop for both would be over an iterator that has to be
    // shown to end, and to end before the 65th bit.
    pub(crate) fn mix(&self, word: u64) -> u64
        ensures { result ≡ word_of (length (sets_read self.now)) (mixed 64 (sets_read self.now) (bit_of word)) }
    {
        let mut mixture = 0u64;
        for (k, set) in self.words.as_slice().iter().enumerate() {
            mixture |= (parity(set & word) as u64) << k;
        }
        mixture
    }
}
