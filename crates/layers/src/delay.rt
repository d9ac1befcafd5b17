ghost use Rattle.std.specs.Prelude.{◌≡◌};
ghost use Rattle.bits.specs.Rows.{zeros, upto};
ghost use Rattle.bits.specs.Words.{bit_of};
ghost use Rattle.layers.specs.Delayed.{joined, delayed};
ghost use Rattle.layers.specs.Views.{delay_parts};
ghost use Rattle.layers.specs.Delays.{superposes};
ghost use Rattle.layers.specs.Delays;

use bits::low;
use machine::Machine;

// A delay: `kept` has what the outlets below were before the last shift, outlet i in bit i. Its bits past the outlets mean nothing.
#[derive(Drop)]
pub struct Delay<M> {
    below: M,
    kept: u64,
}

impl<M> Delay<M> {
    // A delay over a machine, its own cells 0.
    pub fn new(below: M) -> Delay<M>
        ensures { delay_parts result ≡ (below, zeros) }
    {
        Delay { below, kept: 0 }
    }

    // The machine below. Each layer says this itself: nothing is generic over layers, so a trait of it would have no caller.
    pub fn below(&self) -> &M
        ensures { result.now ≡ self.now.below }
    {
        &self.below
    }
}

impl<M: Machine> Machine for Delay<M> {
    ghost meaning = { λ d. delayed (M.Machine.meaning d.below) };

    ghost cells = { λ d. joined (M.Machine.meaning d.below).size (M.Machine.cells d.below) (upto (M.Machine.meaning d.below).outlets (bit_of d.kept)) };

    ghost superposition = { λ d. superposes (M.Machine.meaning d.below) (M.Machine.superposition d.below) };

    ghost counted = { λ d.
        let c = M.Machine.counted d.below in
        record { channels_some = c.channels_some; channels_few = c.channels_few; outlets_some = c.outlets_some; outlets_few = c.outlets_few } };

    ghost held = { λ d. let m = M.Machine.meaning d.below in Delays.held m.size m.outlets (M.Machine.cells d.below) (bit_of d.kept) };

    // What stays as it is below is asked below: a default method of `Machine` has no machine below to ask.
    fn channels(&self) -> usize {
        self.below.channels()
    }

    fn outlets(&self) -> usize {
        self.below.outlets()
    }

    fn reset(&mut self) {
        self.below.reset();
        self.kept = 0;
    }

    fn shift(&mut self, word: u64) {
        let before = self.below.read();
        self.below.shift(word);
        self.kept = before;
    }

    fn read(&self) -> u64 {
        low(self.kept, self.below.outlets())
    }
}
