ghost use Rattle.registers.specs.Views.{inlets_read, register_state};
ghost use Rattle.registers.specs.Laws.{superposes};
ghost use Rattle.registers.specs.Laws;
ghost use Rattle.bits.proofs.Bitwise.{bits_within};
ghost use Rattle.lists.proofs.Lengths.{listed_few};

use crate::register::Register;
use crate::turns::Turns;
use machine::Machine;

impl<T: Turns> Machine for Register<T> {
    ghost meaning = { λ r. (register_state r).meaning };

    ghost cells = { λ r. (register_state r).cells };

    ghost superposition = { λ r.
        superposes (T.size r.turning) (inlets_read r.inlets).into (T.turned r.turning) (T.sums r.turning) };

    ghost counted = { λ r. Laws.counted (T.size r.turning) (inlets_read r.inlets).into (T.turned r.turning) (T.some r.turning) (T.few r.turning) r.some (listed_few r.inlets.cells) };

    ghost held = { λ r. bits_within (T.size r.turning) r.cells r.held };

    fn channels(&self) -> usize {
        self.inlets.channels()
    }

    fn outlets(&self) -> usize {
        self.turning.size()
    }

    fn reset(&mut self) {
        self.cells = 0;
    }

    fn shift(&mut self, word: u64) {
        self.cells = self.turning.turn(self.cells) ^ self.inlets.feed(word);
    }

    fn read(&self) -> u64 {
        self.cells
    }
}
