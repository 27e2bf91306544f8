// How a difference list is made and read.
ghost use Rattle.std.specs.Prelude.{◌≡◌, [], length};
ghost use Rattle.engine.specs.States.{Found};
ghost use Rattle.engine.specs.Lists.{held_in};

use crate::difference::Difference;
use crate::fault::EngineFault;
use crate::list::DifferenceList;
use bounded::list::BoundedList;

// What stands in the entries that hold nothing.
const NO_DIFFERENCE: Difference = Difference {
    from: 0,
    to: 0,
    k: 0,
};

impl DifferenceList {
    // One event, and nothing held.
    pub fn new() -> DifferenceList
        ensures { (result.events ≡ 1) × (held_in result ≡ []) }
    {
        DifferenceList {
            events: 1,
            entries: BoundedList::new(NO_DIFFERENCE),
        }
    }

    pub fn events(&self) -> usize
        ensures { result ≡ self.now.events }
    {
        self.events
    }

    pub fn len(&self) -> usize
        ensures { result ≡ length (held_in self.now) }
    {
        self.entries.len()
    }

    // The held differences, the newest last.
    pub fn held(&self) -> &[Difference]
        ensures { result.now ≡ held_in self.now }
    {
        self.entries.as_slice()
    }

    // The difference at a place of the list.
    pub fn at(&self, place: usize) -> Result<Difference, EngineFault>
        ensures { Found place (held_in self.now) result }
    {
        self.held().get(place).copied().ok_or(EngineFault::NoneHeld)
    }
}
