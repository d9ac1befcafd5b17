ghost use Rattle.std.specs.Prelude.{◌≡◌};

mod propose;

use crate::counter::EquationCounter;

// A trial: it has hold of the counter alone, and unless it is kept the counter goes back to where the trial found it.
pub struct Trial<'a> {
    pub(crate) counter: &'a mut EquationCounter,
    pub(crate) found: usize,
}

impl Drop for Trial<'_> {
    fn drop(self)
        ensures { self.exit.0.now.count ≡ self.entry.found }
    {
        let Trial { counter, found } = self;
        counter.count = found;
    }
}

impl<'a> Trial<'a> {
    // Opens a trial, which notes how many equations are in force.
    pub fn open(counter: &'a mut EquationCounter) -> Trial<'a>
        ensures made { (result.counter.now ≡ counter.old) × (result.found ≡ counter.old.count) }
        ensures named { result.counter.ghost_name ≡ counter.entry.ghost_name }
    {
        let found = counter.count;
        Trial { counter, found }
    }

    // Ends the trial; its bits go on standing.
    pub fn keep(self)
        ensures { self.exit.0.now ≡ self.entry.counter.now }
    {
        // Each part by name: with `..` the rest would be dropped, and the drop lets go.
        let Trial {
            counter: _,
            found: _,
        } = self;
    }

    // Ends the trial; its bits stand no more. The end of a scope does the same.
    pub fn let_go(self)
        ensures { self.exit.0.now.count ≡ self.entry.found }
    {}
}
