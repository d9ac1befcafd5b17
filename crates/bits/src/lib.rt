// Word operations by what they do to rows of bits, and bits as digits.
#![tactic(auto)]

ghost use Rattle.std.specs.Prelude.{◌≡◌};
ghost use Rattle.bits.specs.Digits.{digit_of};
ghost use Rattle.bits.specs.Rows.{sum_of};
ghost use Rattle.bits.specs.Words.{bit_of, word_of};

// The low bits of a word, `count` of them.
pub fn low(word: u64, count: usize) -> u64
    ensures { result ≡ word_of count (bit_of word) }
{
    if count < 64 {
        word & ((1u64 << count) - 1)
    } else {
        word
    }
}

// The sum of a word's bits.
pub fn parity(word: u64) -> bool
    ensures { result ≡ sum_of 64 (bit_of word) }
{
    word.count_ones() % 2 == 1
}

// Whether the word has a bit at that place.
pub fn has(word: u64, place: usize) -> bool
    ensures { result ≡ bit_of word place }
{
    place < 64 && word >> place & 1 == 1
}

// A bit as a digit, the character 0 or 1.
pub fn digit(bit: bool) -> u8
    ensures { result ≡ digit_of bit }
{
    if bit { b'1' } else { b'0' }
}
