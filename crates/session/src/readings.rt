// What can be read of a session between trials.
ghost use Rattle.std.specs.Prelude.{◌≡◌, length};
ghost use Rattle.bits.specs.Digits.{digits_of};
ghost use Rattle.equations.specs.Equations.{words_row};
ghost use Rattle.refusals.specs.Chains.{answer_of, left_by};
ghost use Rattle.session.specs.Dialogues.{FreeTruly, ReadTruly};
ghost use Rattle.session.specs.Sessions.{freeing, patterning, Halved};
ghost use Rattle.session.specs.Views.{session_of};

use crate::counter::EquationCounter;
use crate::table::EquationTable;
use bits::digit;
use equations::has_bit;
use refusals::Refusal;

// How many bits of an injection are free: 2 to that power injections load all bits that stand.
pub fn free_count(table: &EquationTable, counter: &EquationCounter) -> Result<usize, Refusal>
    ensures answer { result ≡ freeing (session_of table.now counter.now) }
    ensures halved { Halved (session_of table.now counter.now) }
    ensures truly { FreeTruly (session_of table.now counter.now) result }
{
    Ok(table.in_force(counter)?.free())
}

// Writes the first bits over memory, as many as it has room for.
fn write_digits(words: [u64; 4], digits: &mut [u8])
    ensures { digits.new ≡ digits_of (length digits.old) (words_row words) }
{
    for (i, place) in digits.iter_mut().enumerate() {
        *place = digit(has_bit(words, i));
    }
}

// Reads the pattern: the first injection, in dictionary order, that loads all bits that stand, as digits, bit 0 first. Memory past them, and
// all of it where the reading is refused, stays as it was.
pub fn read_pattern(
    table: &EquationTable,
    counter: &EquationCounter,
    digits: &mut [u8],
) -> Result<(), Refusal>
    ensures answer { result ≡ answer_of (patterning (session_of table.now counter.now) digits.old) }
    ensures after { digits.new ≡ left_by digits.old (patterning (session_of table.now counter.now) digits.old) }
    ensures halved { Halved (session_of table.now counter.now) }
    ensures truly { ReadTruly (session_of table.now counter.now) digits.old result digits.new }
{
    let in_force = table.in_force(counter)?;
    if digits.len() < in_force.variables {
        return Err(Refusal::MemoryTooShort);
    }
    write_digits(in_force.first_solution(), &mut digits[..in_force.variables]);
    Ok(())
}
