// What the distance engine does.
ghost use Rattle.std.specs.Prelude.{◌≡◌, ◌<◌, [], ◌∷◌, ◌++◌, length, Ok};
ghost use Rattle.engine.specs.Circles.{NoRisingCircle};
ghost use Rattle.engine.specs.States.{Admitted, Added, Numbered};
ghost use Rattle.distances.specs.Engines.{state_of, sound_of, Closing};

use crate::distance::DistanceEngine;
use crate::level::LevelList;
use crate::table::Table;
use crate::way::rises;
use engine::difference::Difference;
use engine::engine::DifferenceEngine;
use engine::fault::EngineFault;

impl DistanceEngine {
    // One event, and nothing held.
    pub fn new() -> DistanceEngine
        ensures { ((state_of result).events ≡ 1) × ((state_of result).held ≡ []) }
    {
        let list = LevelList::new();
        let mut table = Table::new();
        table.rebuild(&list);
        DistanceEngine { list, table }
    }

    // Whether a circle would rise with the difference: the way back from its end to its start, and its k, are above zero.
    fn closes_rising_circle(&self, difference: Difference) -> bool
        requires { Admitted difference (state_of self.now).events (length (state_of self.now).held) }
        ensures { Closing (state_of self.now).held difference result }
    {
        let back = self.table.sum(difference.to, difference.from);
        rises(back, difference.k)
    }

    // Holds a difference with which no circle rises.
    fn hold(&mut self, difference: Difference) -> Result<(), EngineFault>
        requires { NoRisingCircle ((state_of self.old).held ++ (difference ∷ [])) }
        ensures { Added difference (state_of self.old) (state_of self.new) result }
    {
        self.list.push(difference)?;
        self.table.raise(difference);
        Ok(())
    }

    // The greatest sum over the walks that end in the event.
    fn highest_into(&self, event: usize) -> i32
        requires { event < (state_of self.now).events }
        ensures { Numbered event (state_of self.now) (Ok result) }
    {
        self.table.highest(event)
    }
}

impl DifferenceEngine for DistanceEngine {
    ghost state = { state_of };

    ghost sound = { sound_of };

    fn wipe(&mut self, events: usize) -> Result<(), EngineFault> {
        self.list.wipe(events)?;
        self.table.rebuild(&self.list);
        Ok(())
    }

    fn add(&mut self, difference: Difference) -> Result<(), EngineFault> {
        self.list.differences.admit(difference)?;
        if self.closes_rising_circle(difference) {
            return Err(EngineFault::RisingCircle);
        }
        self.hold(difference)
    }

    fn drop_newest(&mut self) -> Result<(), EngineFault> {
        self.list.pop()?;
        self.table.rebuild(&self.list);
        Ok(())
    }

    fn event_count(&self) -> usize {
        self.list.differences.events()
    }

    fn held_count(&self) -> usize {
        self.list.differences.len()
    }

    fn held_at(&self, place: usize) -> Result<Difference, EngineFault> {
        self.list.differences.at(place)
    }

    fn number(&self, event: usize) -> Result<i32, EngineFault> {
        if event >= self.list.differences.events() {
            return Err(EngineFault::EventOutOfRange);
        }
        Ok(self.highest_into(event))
    }
}
