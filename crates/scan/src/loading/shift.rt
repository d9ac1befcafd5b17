ghost use Rattle.std.specs.Prelude.{◌≡◌};
ghost use Rattle.refusals.specs.Chains.{answer_of, left_by};
ghost use Rattle.scan.specs.Runs.{underway, shifting};
ghost use Rattle.scan.specs.Views.{run_of};

use crate::chains::move_up;
use crate::loading::Loading;
use machine::Machine;
use refusals::Refusal;

impl Loading {
    // One cycle: the machine is shifted by the word and, in a cycle above the warm-up, every chain moves up and takes its outlet. A refusal
    // leaves run, machine and memory as they were.
    pub fn shift<M: Machine>(
        &mut self,
        machine: &mut M,
        word: u64,
        chains: &mut [u64],
    ) -> Result<(), Refusal>
        ensures same { M.meaning machine.new ≡ M.meaning machine.old }
        ensures answer { result ≡ answer_of (shifting (M.meaning machine.old) (underway (run_of self.old) (M.cells machine.old) chains.old) word) }
        ensures after { underway (run_of self.new) (M.cells machine.new) chains.new ≡ left_by (underway (run_of self.old) (M.cells machine.old) chains.old) (shifting (M.meaning machine.old) (underway (run_of self.old) (M.cells machine.old) chains.old) word) }
    {
        let fit = self.fit;
        if !fit.suits(machine) {
            return Err(Refusal::OutOfRange);
        }
        let (words, _) = chains
            .split_at_mut_checked(fit.frame.shifts)
            .ok_or(Refusal::MemoryTooShort)?;
        if self.done >= fit.cycles() {
            return Err(Refusal::NoCycleLeft);
        }
        machine.shift(word);
        self.done += 1;
        if self.done > fit.frame.warmup {
            move_up(words, fit.outlets, machine.read());
        }
        Ok(())
    }
}
