ghost use Rattle.std.specs.Prelude.{◌≡◌};
ghost use Rattle.refusals.specs.Chains.{ok_map};
ghost use Rattle.scan.specs.Runs.{bench, starting, answered, bench_after};
ghost use Rattle.scan.specs.Views.{run_of};

use crate::fit::Fit;
use crate::frame::Frame;
use crate::loading::Loading;
use machine::Machine;
use refusals::Refusal;

impl Loading {
    // Starts a run: the machine is reset and a word of memory for each position is made 0. A refusal leaves machine and memory as they were.
    pub fn start<M: Machine>(
        machine: &mut M,
        frame: Frame,
        chains: &mut [u64],
    ) -> Result<Loading, Refusal>
        ensures same { M.meaning machine.new ≡ M.meaning machine.old }
        ensures answer { ok_map run_of result ≡ answered (starting (M.meaning machine.old) frame (bench (M.cells machine.old) chains.old)) }
        ensures after { bench (M.cells machine.new) chains.new ≡ bench_after (bench (M.cells machine.old) chains.old) (starting (M.meaning machine.old) frame (bench (M.cells machine.old) chains.old)) }
    {
        let fit = Fit::of(machine, frame)?;
        let (words, _) = chains
            .split_at_mut_checked(frame.shifts)
            .ok_or(Refusal::MemoryTooShort)?;
        machine.reset();
        words.fill(0);
        Ok(Loading { fit, done: 0 })
    }
}
