ghost use Rattle.std.specs.Prelude.{length};
ghost use Rattle.equations.specs.Systems.{Reduced};

use crate::in_force::InForce;
use equations::Equation;

impl InForce<'_> {
    // An equation reduced: each whose lead is among its variables is added to it.
    pub(crate) fn reduce(&self, mut equation: Equation) -> Equation
        ensures { Reduced self.now.variables self.now.rows.now (length self.now.rows.now) equation result }
    {
        for row in self.rows {
            if row.lead().is_some_and(|lead| equation.has(lead)) {
                equation = equation.plus(*row);
            }
        }
        equation
    }
}
