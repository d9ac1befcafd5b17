ghost use Rattle.session.specs.Lent.{Lent};

use crate::counter::EquationCounter;
use crate::in_force::InForce;
use crate::table::EquationTable;
use refusals::Refusal;

impl EquationTable {
    // The equations in force: the first of those written, as many as the counter says.
    pub(crate) fn in_force(&self, counter: &EquationCounter) -> Result<InForce<'_>, Refusal>
        ensures { Lent self.now counter.now.count result }
    {
        let rows = self.rows[..self.written]
            .get(..counter.count)
            .ok_or(Refusal::CounterAhead)?;
        Ok(InForce {
            rows,
            variables: self.fit.map_or(0, |fit| fit.variables()),
        })
    }
}
