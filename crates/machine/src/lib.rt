// Linear machines: what a ring generator, an LFSR, a phase shifter and every pile of them have in common.
#![tactic(auto)]

ghost use Rattle.std.specs.Prelude.{◌≡◌};
ghost use Rattle.bits.specs.Rows.{Row, zeros, upto};
ghost use Rattle.machine.specs.Linear.{Linear, Superposes, Counted, shifted, shown};
ghost use Rattle.machine.specs.OnLists.{ListsAreLinear};

// A machine is known by its meaning, which no call changes, and by its cells. No call refuses.
//
// Each call that drives a machine says in its clause `same` that the meaning stays. A type cannot say it: machines of one type have different
// meanings. Joined with the cells, it would stand in every definition of what a call leaves.
pub trait Machine {
    ghost meaning: { Self → Linear };

    ghost cells: { Self → Row };

    // The number of channels, 1 to 64.
    fn channels(&self) -> usize
        ensures { result ≡ (meaning self.now).channels };

    // The number of outlets, 1 to 64.
    fn outlets(&self) -> usize
        ensures { result ≡ (meaning self.now).outlets };

    // Makes every cell 0.
    fn reset(&mut self)
        ensures same { meaning self.new ≡ meaning self.old }
        ensures after { cells self.new ≡ zeros };

    // One shift, in which channel k takes bit k of the word; bits past the channels are ignored.
    fn shift(&mut self, word: u64)
        ensures same { meaning self.new ≡ meaning self.old }
        ensures after { cells self.new ≡ shifted (meaning self.old) (cells self.old) word };

    // The outlets, outlet i in bit i; bits past the outlets are 0.
    fn read(&self) -> u64
        ensures { result ≡ shown (meaning self.now) (cells self.now) };

    ghost superposition: { (m : Self) → Superposes (meaning m) };

    ghost counted: { (m : Self) → Counted (meaning m) };

    ghost held: { (m : Self) → upto (meaning m).size (cells m) ≡ cells m };
}

// One cycle: a shift by a word, and the outlets after it.
//
// The clause `drawn` says how much of the subject the trait covers: whatever is drawn with n cells, K channels and C outlets, K and C from 1
// to 64, and superposes on lists of so many bits, has a meaning that the trait takes.
pub fn cycle<M: Machine>(machine: &mut M, word: u64) -> u64
    ensures same { M.meaning machine.new ≡ M.meaning machine.old }
    ensures after { M.cells machine.new ≡ shifted (M.meaning machine.old) (M.cells machine.old) word }
    ensures outlets { result ≡ shown (M.meaning machine.old) (M.cells machine.new) }
    ensures drawn { ListsAreLinear }
{
    machine.shift(word);
    machine.read()
}
