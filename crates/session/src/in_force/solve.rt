ghost use Rattle.std.specs.Prelude.{◌≡◌, length, Some};
ghost use Rattle.bits.specs.Lists.{list_of};
ghost use Rattle.equations.specs.Counting.{first};
ghost use Rattle.equations.specs.Equations.{solutions, words_row};
ghost use Rattle.session.specs.Leaders.{Leaders, Told};

use crate::in_force::InForce;
use equations::{Equation, product, with_bit};

impl<'a> InForce<'a> {
    // For each variable the equation that it leads.
    fn leaders(&self) -> [Option<&'a Equation>; 256]
        ensures { Leaders self.now.rows.now (length self.now.rows.now) result }
    {
        let mut leaders = [None; 256];
        for row in self.rows {
            if let Some(lead) = row.lead() {
                leaders[lead] = Some(row);
            }
        }
        leaders
    }

    // The first solution: from variable 0 up, one that leads no equation is 0, and one that leads is as its equation tells it to be.
    pub(crate) fn first_solution(&self) -> [u64; 4]
        ensures { first self.now.variables (solutions self.now.rows.now) ≡ Some (list_of self.now.variables (words_row result)) }
    {
        let leaders = self.leaders();
        leaders[..self.variables].iter().enumerate().fold(
            [0; 4],
            // The clause is written, as what is inferred for a closure whose parameter holds a reference in an Option says nothing of its result.
            |solution, (v, leader)|
                ensures { Told solution v leader.entry.now result }
            {
                match leader {
                    Some(row) => {
                        let told = row.right != product(row.coefficients, solution);
                        with_bit(solution, v, told)
                    }
                    None => solution,
                }
            },
        )
    }
}
