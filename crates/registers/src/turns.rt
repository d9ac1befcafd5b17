// What a register needs of the part that turns its cells.
ghost use Rattle.std.specs.Prelude.{◌≡◌, ℕ, ◌≤◌};
ghost use Rattle.bits.specs.Rows.{Row, plus};
ghost use Rattle.bits.specs.Words.{bit_of, word_of};

// Taps or links: a part that says what the cells become in a shift in which nothing is injected.
pub trait Turns {
    ghost size: { Self → ℕ };

    ghost turned: { Self → Row → Row };

    // The number of cells.
    fn size(&self) -> usize
        ensures { result ≡ size self.now };

    // The cells after a shift in which nothing is injected, cell i in bit i; bits past the cells are ignored going in and 0 coming out.
    fn turn(&self, cells: u64) -> u64
        ensures { result ≡ word_of (size self.now) (turned self.now (bit_of cells)) };

    ghost some: { (t : Self) → 2 ≤ size t };

    ghost few: { (t : Self) → size t ≤ 64 };

    ghost sums: { (t : Self) (a b : Row) → turned t (plus a b) ≡ plus (turned t a) (turned t b) };
}
