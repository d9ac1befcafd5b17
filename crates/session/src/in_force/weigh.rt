ghost use Rattle.equations.specs.Systems.{Within};
ghost use Rattle.session.specs.Judgements.{Judged};

use crate::in_force::InForce;
use equations::Equation;
use refusals::Refusal;

impl InForce<'_> {
    // What an equation adds: the equation, reduced, or nothing if it follows from those in force. One that contradicts them is refused.
    pub(crate) fn weigh(&self, equation: Equation) -> Result<Option<Equation>, Refusal>
        requires { Within self.now.variables equation }
        ensures { Judged self.now.variables self.now.rows.now equation result }
    {
        let reduced = self.reduce(equation);
        match (reduced.lead(), reduced.right) {
            (Some(_), _) => Ok(Some(reduced)),
            (None, false) => Ok(None),
            (None, true) => Err(Refusal::Conflict),
        }
    }
}
