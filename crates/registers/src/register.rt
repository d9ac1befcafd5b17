ghost use Rattle.std.specs.Prelude.{◌≡◌, ◌^◌, ◌<◌, ◌≤◌, length};
ghost use Rattle.lists.specs.Listed.{listed};

mod make;
pub mod shifts;

use crate::inlets::Inlets;
use crate::turns::Turns;

// A register: cell i in bit i of `cells`. What turns the cells, taps or links, is a part of the size of the inlets.
#[derive(Drop)]
pub struct Register<T: Turns> {
    cells: u64,
    turning: T,
    inlets: Inlets,
    ghost alike: { T.size turning ≡ inlets.size.cells },
    ghost some: { 1 ≤ length (listed inlets.cells) },
    ghost held: { cells < 2 ^ T.size turning },
}
