// Patterns: the digits of an injection, replayed into simulated scan chains.
#![tactic(auto)]

ghost use Rattle.std.specs.Prelude.{◌≡◌, ◌≤◌, true, is_ok, Ok};
ghost use Rattle.bits.specs.Digits.{digit_row};
ghost use Rattle.scan.specs.Loads.{PositionEndsWithItsOutlet};
ghost use Rattle.scan.specs.Runs.{bench, answered, bench_after};
ghost use Rattle.patterns.specs.Replays.{replayable, replaying, HoldsItsLoad, WholeRuns};

mod digits;

use digits::{all_digits, word_of};
use machine::Machine;
use refusals::Refusal;
use scan::{Frame, Loaded, Loading, SPAN_LIMIT};

// Whether a pattern can be replayed into so many words of chain memory. A `Fit` does not say it: a wrong count of digits goes before the span,
// and memory is looked at with the rest, before the machine is driven.
fn check_pattern(channels: usize, frame: Frame, digits: &[u8], room: usize) -> Result<(), Refusal>
    requires { channels ≤ 64 }
    ensures { result ≡ replayable channels frame digits.now room (Ok tt) }
{
    frame.check_cycles()?;
    let span = channels * (frame.warmup + frame.shifts);
    if digits.len() != span {
        return Err(Refusal::OutOfRange);
    }
    if span > SPAN_LIMIT {
        return Err(Refusal::TooMany);
    }
    if room < frame.shifts {
        return Err(Refusal::MemoryTooShort);
    }
    if !all_digits(digits) {
        return Err(Refusal::MalformedField);
    }
    Ok(())
}

// Replays a pattern: the digits of an injection, channel by channel and cycle by cycle, into the chains. A refusal leaves machine and memory
// as they were.
//
// `loaded` says which cells the pattern sets, `positions` where they come from, and `runs` that shifting by hand does the same.
#[tactic(auto, using(crate::proofs::Loads::position_ends, crate::proofs::Runs::whole_runs))]
pub fn replay<M: Machine>(
    machine: &mut M,
    frame: Frame,
    digits: &[u8],
    chains: &mut [u64],
) -> Result<Loaded, Refusal>
    ensures same { M.meaning machine.new ≡ M.meaning machine.old }
    ensures answer { result ≡ answered (replaying (M.meaning machine.old) frame digits.now (bench (M.cells machine.old) chains.old)) }
    ensures after { bench (M.cells machine.new) chains.new ≡ bench_after (bench (M.cells machine.old) chains.old) (replaying (M.meaning machine.old) frame digits.now (bench (M.cells machine.old) chains.old)) }
    ensures loaded { is_ok result ≡ true → HoldsItsLoad (M.meaning machine.old) frame (digit_row digits.now) chains.new }
    ensures positions { PositionEndsWithItsOutlet (M.meaning machine.old) frame }
    ensures runs { WholeRuns (M.meaning machine.old) frame }
{
    let channels = machine.channels();
    check_pattern(channels, frame, digits, chains.len())?;
    let mut run = Loading::start(machine, frame, chains)?;
    for cycle in digits.chunks_exact(channels) {
        run.shift(machine, word_of(cycle), chains)?;
    }
    Ok(run.close()?)
}
