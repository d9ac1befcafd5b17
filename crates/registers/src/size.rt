ghost use Rattle.std.specs.Prelude.{◌≤◌};

mod circle;

// The number of cells of a register: 2 to 64.
#[derive(Clone, Copy)]
pub(crate) struct Size {
    pub(crate) cells: usize,
    ghost some: { 2 ≤ cells },
    ghost few: { cells ≤ 64 },
}
