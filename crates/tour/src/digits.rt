// Bits as text.
ghost use Rattle.std.specs.Prelude.{◌≡◌, length, IfOk, string_bytes};
ghost use Rattle.bits.specs.Digits.{digits_of};
ghost use Rattle.bits.specs.Words.{bit_of};
ghost use Rattle.scan.specs.Memory.{chains_in};
ghost use Rattle.tour.specs.Marks.{mark_of, marks_of};

use bits::{digit, has};
use std::alloc::{AllocError, Global};

// A bit that may be unknown as a character.
fn mark(unknown: bool, bit: bool) -> u8
    ensures { result ≡ mark_of unknown bit }
{
    if unknown { b'X' } else { digit(bit) }
}

// The first `count` bits of a word as noughts and ones, bit 0 first.
pub(crate) fn digits(heap: Global, word: u64, count: usize) -> Result<String, AllocError>
    ensures { IfOk result (λ text. string_bytes text ≡ digits_of count (bit_of word)) }
{
    (0..count)
        .map(|place| char::from(digit(has(word, place))))
        .collect(heap)
}

// One chain as noughts and ones, position 0 first.
pub(crate) fn chain_digits(heap: Global, chains: &[u64], chain: usize) -> Result<String, AllocError>
    ensures { IfOk result (λ text. string_bytes text ≡ digits_of (length chains.now) (λ p. chains_in chains.now p chain)) }
{
    chains
        .iter()
        .map(|word| char::from(digit(has(*word, chain))))
        .collect(heap)
}

// The first `count` bits of a pair of values and unknown marks, with an X for an unknown bit.
pub(crate) fn pair_digits(
    heap: Global,
    pair: (u64, u64),
    count: usize,
) -> Result<String, AllocError>
    ensures { IfOk result (λ text. string_bytes text ≡ marks_of count (bit_of pair.0) (bit_of pair.1)) }
{
    let (values, unknowns) = pair;
    (0..count)
        .map(|place| char::from(mark(has(unknowns, place), has(values, place))))
        .collect(heap)
}
