// Bits as digits: the bytes `0` and `1`.
ghost use Rattle.std.specs.Prelude.{◌≡◌, ◌≤◌, length};
ghost use Rattle.bits.specs.Digits.{all_digits, digit_row};
ghost use Rattle.bits.specs.Words.{word_of};

// Whether every byte is a digit.
pub(crate) fn all_digits(bytes: &[u8]) -> bool
    ensures { result ≡ all_digits bytes.now }
{
    bytes.iter().all(|byte| matches!(byte, b'0' | b'1'))
}

// The word whose bits are the digits. A shifter sums up a word likewise; one loop for both would be over an iterator that has to be shown to end,
// and to end before the 65th bit.
pub(crate) fn word_of(digits: &[u8]) -> u64
    requires { length digits.now ≤ 64 }
    ensures { result ≡ word_of (length digits.now) (digit_row digits.now) }
{
    let mut word = 0u64;
    for (k, digit) in digits.iter().enumerate() {
        word |= ((*digit == b'1') as u64) << k;
    }
    word
}
