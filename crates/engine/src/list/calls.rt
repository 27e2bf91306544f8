// How a difference list grows and shrinks, with the checks that need no look at circles.
ghost use Rattle.std.specs.Prelude.{length};
ghost use Rattle.engine.specs.Circles.{Among, Small};
ghost use Rattle.engine.specs.States.{Admission};
ghost use Rattle.engine.specs.Lists.{held_in, ListWiped, Pushed, Popped};

use crate::difference::{Difference, MOST_EVENTS, MOST_K};
use crate::fault::EngineFault;
use crate::list::DifferenceList;

impl DifferenceList {
    // Sets the number of events, and holds none.
    pub fn wipe(&mut self, events: usize) -> Result<(), EngineFault>
        ensures { ListWiped events self.old self.new result }
    {
        if events == 0 || events > MOST_EVENTS {
            return Err(EngineFault::EventOutOfRange);
        }
        self.events = events;
        self.entries.clear();
        Ok(())
    }

    // Refuses a difference for every reason but a rising circle.
    pub fn admit(&self, difference: Difference) -> Result<(), EngineFault>
        ensures { Admission difference self.now.events (length (held_in self.now)) result }
    {
        if difference.from >= self.events || difference.to >= self.events {
            return Err(EngineFault::EventOutOfRange);
        }
        if difference.k < -MOST_K || difference.k > MOST_K {
            return Err(EngineFault::KOutOfRange);
        }
        if self.entries.is_full() {
            return Err(EngineFault::Full);
        }
        Ok(())
    }

    // Holds one difference more, whether or not a circle rises.
    pub fn push(&mut self, difference: Difference) -> Result<(), EngineFault>
        ensures { Pushed difference self.old self.new result }
    {
        self.admit(difference)?;
        self.append(difference)
    }

    fn append(&mut self, difference: Difference) -> Result<(), EngineFault>
        requires among { Among self.old.events difference }
        requires small { Small difference }
        ensures { Pushed difference self.old self.new result }
    {
        self.entries.push(difference)?;
        Ok(())
    }

    // Lets the newest go.
    pub fn pop(&mut self) -> Result<(), EngineFault>
        ensures { Popped self.old self.new result }
    {
        self.shorten()
    }

    fn shorten(&mut self) -> Result<(), EngineFault>
        ensures { Popped self.old self.new result }
    {
        self.entries.pop().ok_or(EngineFault::NoneHeld)?;
        Ok(())
    }
}
