ghost use Rattle.std.specs.Prelude.{◌≡◌};

// How many equations of a table are in force. Only opening, proposing and the end of a trial change it, and it is never copied.
// It stands apart from the table, since a trial takes hold of it alone.
#[derive(Drop)]
pub struct EquationCounter {
    pub(crate) count: usize,
}

impl EquationCounter {
    // A counter at 0.
    pub fn new() -> EquationCounter
        ensures { result.count ≡ 0 }
    {
        EquationCounter { count: 0 }
    }
}
