// Equations over bits, by value: coefficients, right side, sum and lead.
//
// The proofs hold the theory that a session leans on: how many rows solve equations whose leads differ, and which of them is the first.
#![tactic(auto)]

ghost use Rattle.std.specs.Prelude.{◌≡◌};
ghost use Rattle.bits.specs.Rows.{plus, xor};
ghost use Rattle.equations.specs.Equations.{coefficients_of, lead_of};

mod words;

pub use words::{has_bit, product, with_bit};
use words::{last_bit, sum};

// The coefficients of variables 0 to 255, variable i in bit i % 64 of word i / 64, and the right side.
#[derive(Clone, Copy, Default)]
pub struct Equation {
    pub coefficients: [u64; 4],
    pub right: bool,
}

impl Equation {
    // Whether the coefficient of a variable is 1.
    pub fn has(self, variable: usize) -> bool
        ensures { result ≡ coefficients_of self variable }
    {
        words::has_bit(self.coefficients, variable)
    }

    // The sum of two equations: what solves both solves it.
    pub fn plus(self, other: Equation) -> Equation
        ensures coefficients { coefficients_of result ≡ plus (coefficients_of self) (coefficients_of other) }
        ensures right { result.right ≡ xor self.right other.right }
    {
        Equation {
            coefficients: sum(self.coefficients, other.coefficients),
            right: self.right != other.right,
        }
    }

    // The highest-numbered variable whose coefficient is 1.
    pub fn lead(self) -> Option<usize>
        ensures { result ≡ lead_of self }
    {
        last_bit(self.coefficients)
    }
}
