ghost use Rattle.std.specs.Prelude.{◌≡◌};
ghost use Rattle.session.specs.Dialogues.{ToldTruly};
ghost use Rattle.session.specs.Sessions.{Proposed, cells_left};
ghost use Rattle.session.specs.Views.{session_of};

use crate::table::EquationTable;
use crate::trial::Trial;
use machine::Machine;
use refusals::Refusal;
use responses::equation_of;
use scan::CareBit;

impl Trial<'_> {
    // Proposes a bit, and answers by how much the free count fell: 1, or 0 if the bits that stand imply it. The machine is driven from reset and
    // left at reset, also where the bit conflicts; a refusal for another reason leaves it as it was. After a refusal the trial goes on. The answer
    // is a number and no enum, as it is a difference of free counts.
    pub fn propose<M: Machine>(
        &mut self,
        table: &mut EquationTable,
        machine: &mut M,
        bit: CareBit,
    ) -> Result<usize, Refusal>
        ensures named { self.new.counter.ghost_name ≡ self.old.counter.ghost_name }
        ensures found { self.new.found ≡ self.old.found }
        ensures same { M.meaning machine.new ≡ M.meaning machine.old }
        ensures cells { M.cells machine.new ≡ cells_left (M.meaning machine.old) (session_of table.old self.old.counter.now) bit (M.cells machine.old) }
        ensures proposed { Proposed (M.meaning machine.old) (session_of table.old self.old.counter.now) bit result (session_of table.new self.new.counter.now) }
        ensures truly { ToldTruly (M.meaning machine.old) (session_of table.old self.old.counter.now) bit result (session_of table.new self.new.counter.now) }
    {
        let in_force = table.in_force(self.counter)?;
        // The machine must be like that of the opening; before any, no machine is.
        let fit = table
            .fit
            .filter(|fit| fit.suits(machine))
            .ok_or(Refusal::OutOfRange)?;
        let equation = equation_of(machine, fit.frame(), bit)?;
        let Some(row) = in_force.weigh(equation)? else {
            return Ok(0);
        };
        table.write(self.counter.count, row);
        self.counter.count += 1;
        Ok(1)
    }
}
