// Difference lists in which no circle rises.
ghost use Rattle.std.specs.Prelude.{◌≡◌, [], ◌∷◌, ◌++◌};
ghost use Rattle.engine.specs.Circles.{NoRisingCircle};
ghost use Rattle.engine.specs.Lists.{held_in, ListWiped, Pushed, Popped};

use engine::difference::Difference;
use engine::fault::EngineFault;
use engine::list::DifferenceList;

#[derive(Drop)]
pub(crate) struct LevelList {
    pub(crate) differences: DifferenceList,
    ghost level: { NoRisingCircle (held_in differences) },
}

impl LevelList {
    // One event, and nothing held.
    pub(crate) fn new() -> LevelList
        ensures { (result.differences.events ≡ 1) × (held_in result.differences ≡ []) }
    {
        LevelList {
            differences: DifferenceList::new(),
        }
    }

    // Sets the number of events, and holds none.
    pub(crate) fn wipe(&mut self, events: usize) -> Result<(), EngineFault>
        ensures { ListWiped events self.old.differences self.new.differences result }
    {
        self.differences.wipe(events)
    }

    // Holds one difference more, with which no circle rises.
    pub(crate) fn push(&mut self, difference: Difference) -> Result<(), EngineFault>
        requires { NoRisingCircle (held_in self.old.differences ++ (difference ∷ [])) }
        ensures { Pushed difference self.old.differences self.new.differences result }
    {
        self.differences.push(difference)
    }

    // Lets the newest go.
    pub(crate) fn pop(&mut self) -> Result<(), EngineFault>
        ensures { Popped self.old.differences self.new.differences result }
    {
        self.differences.pop()
    }
}
