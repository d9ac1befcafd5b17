ghost use Rattle.layers.specs.Shifter.{shifter};
ghost use Rattle.layers.specs.Views.{sets_read};
ghost use Rattle.layers.specs.Mixes.{superposes};
ghost use Rattle.layers.specs.Mixes;

use crate::shifter::PhaseShifter;
use machine::Machine;

impl<M: Machine> Machine for PhaseShifter<M> {
    ghost meaning = { λ p. shifter (M.Machine.meaning p.below) (sets_read p.sets) };

    ghost cells = { λ p. M.Machine.cells p.below };

    ghost superposition = { λ m. superposes (M.Machine.meaning m.below) (sets_read m.sets) (M.Machine.superposition m.below) };

    ghost counted = { λ m. Mixes.counted (M.Machine.meaning m.below) m.sets.words m.some (M.Machine.counted m.below) };

    ghost held = { λ p. M.Machine.held p.below };

    // What stays as it is below is done below: a default method of `Machine` has no machine below to call.
    fn channels(&self) -> usize {
        self.below.channels()
    }

    fn outlets(&self) -> usize {
        self.sets.words.len()
    }

    fn reset(&mut self) {
        self.below.reset();
    }

    fn shift(&mut self, word: u64) {
        self.below.shift(word);
    }

    fn read(&self) -> u64 {
        self.sets.mix(self.below.read())
    }
}
