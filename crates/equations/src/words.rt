// Rows of 256 bits as four words, place i in bit i % 64 of word i / 64. The words are taken, built and handed back by value.
// A place is compared with 256, as in the definition, and not asked of the words by `get`, which would say it in words of 64.
ghost use Rattle.std.specs.Prelude.{◌≡◌, ◌&&◌, ◌||◌, ◌==◌};
ghost use Rattle.bits.specs.Rows.{plus, upto};
ghost use Rattle.equations.specs.Equations.{words_row, dot, last_bit};

use bits::{has, parity};
use std::array;

// The words with a bit set at that place if `bit` says so; from place 256 on there is none to set.
pub fn with_bit(mut words: [u64; 4], place: usize, bit: bool) -> [u64; 4]
    ensures { words_row result ≡ upto 256 (λ i. words_row words i || (place == i && bit)) }
{
    if place < 256 {
        words[place / 64] |= (bit as u64) << (place % 64);
    }
    words
}

// Whether there is a bit at that place.
pub fn has_bit(words: [u64; 4], place: usize) -> bool
    ensures { result ≡ words_row words place }
{
    place < 256 && has(words[place / 64], place % 64)
}

// The sum of two rows.
pub(crate) fn sum(a: [u64; 4], b: [u64; 4]) -> [u64; 4]
    ensures { words_row result ≡ plus (words_row a) (words_row b) }
{
    array::from_fn(|w| a[w] ^ b[w])
}

// The sum of the bits that two rows have in common.
pub fn product(a: [u64; 4], b: [u64; 4]) -> bool
    ensures { result ≡ dot (words_row a) (words_row b) }
{
    parity(a.iter().zip(&b).fold(0, |sum, (x, y)| sum ^ x & y))
}

// The highest place that has a bit.
pub(crate) fn last_bit(words: [u64; 4]) -> Option<usize>
    ensures { result ≡ last_bit (words_row words) }
{
    let w = words.iter().rposition(|word| *word != 0)?;
    Some(64 * w + 63 - words[w].leading_zeros() as usize)
}
