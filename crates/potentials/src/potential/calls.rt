// What the engine is made from, and its calls.
ghost use Rattle.std.specs.Prelude.{◌≡◌, ◌<◌, [], ◌∷◌, ◌++◌, length};
ghost use Rattle.engine.specs.Circles.{Meets, NoRisingCircle};
ghost use Rattle.engine.specs.Lists.{held_in};
ghost use Rattle.engine.specs.States.{Added, Admitted, Dropped, Near, Wiped};
ghost use Rattle.potentials.specs.Numbers.{Settled, Tops};
ghost use Rattle.potentials.specs.States.{state_of, sound_of};

use crate::numbers::Level;
use crate::potential::PotentialEngine;
use bounded::list::BoundedList;
use engine::difference::{Difference, MOST_EVENTS};
use engine::engine::DifferenceEngine;
use engine::fault::EngineFault;
use engine::list::DifferenceList;

impl PotentialEngine {
    // One event, and nothing held.
    #[tactic(auto, using(crate::proofs::Passes::tops_zeros))]
    pub fn new() -> PotentialEngine
        ensures { ((state_of result).events ≡ 1) × ((state_of result).held ≡ []) }
    {
        PotentialEngine {
            list: DifferenceList::new(),
            numbers: [0; MOST_EVENTS],
            snapshots: BoundedList::new([0; MOST_EVENTS]),
        }
    }

    // What the engine holds, with its numbers.
    fn level(&self) -> Level<'_>
        ensures { result.held.now ≡ held_in self.now.list }
    {
        Level {
            numbers: &self.numbers,
            held: self.list.held(),
        }
    }

    // Holds a difference more, with the numbers that are right then.
    #[tactic(auto, using(crate::proofs::Snapshots::before_at))]
    fn hold(
        &mut self,
        difference: Difference,
        numbers: [i32; MOST_EVENTS],
    ) -> Result<(), EngineFault>
        requires level { NoRisingCircle (held_in self.old.list ++ (difference ∷ [])) }
        requires told { Tops (held_in self.old.list ++ (difference ∷ [])) numbers }
        ensures { Added difference (state_of self.old) (state_of self.new) result }
    {
        self.list.push(difference)?;
        // the list had room, so there is room for a snapshot
        self.snapshots.push(self.numbers).unwrap();
        self.numbers = numbers;
        Ok(())
    }

    // Goes back to the numbers before the newest difference came.
    fn release(&mut self) -> Result<(), EngineFault>
        ensures { Dropped (state_of self.old) (state_of self.new) result }
    {
        self.numbers = self.snapshots.pop().ok_or(EngineFault::NoneHeld)?;
        self.list.pop()
    }
}

impl DifferenceEngine for PotentialEngine {
    ghost state = { state_of };

    ghost sound = { sound_of };

    #[tactic(auto, using(crate::proofs::Passes::tops_zeros, crate::proofs::Snapshots::before_at))]
    fn wipe(&mut self, events: usize) -> Result<(), EngineFault> {
        self.list.wipe(events)?;
        self.snapshots.clear();
        self.numbers = [0; MOST_EVENTS];
        Ok(())
    }

    fn add(&mut self, difference: Difference) -> Result<(), EngineFault> {
        self.list.admit(difference)?;
        let numbers = self
            .level()
            .settle(difference)
            .ok_or(EngineFault::RisingCircle)?;
        self.hold(difference, numbers)
    }

    fn drop_newest(&mut self) -> Result<(), EngineFault> {
        self.release()
    }

    fn event_count(&self) -> usize {
        self.list.events()
    }

    fn held_count(&self) -> usize {
        self.list.len()
    }

    fn held_at(&self, place: usize) -> Result<Difference, EngineFault> {
        self.list.at(place)
    }

    #[tactic(auto, using(crate::proofs::Snapshots::number_told))]
    fn number(&self, event: usize) -> Result<i32, EngineFault> {
        if event >= self.event_count() {
            return Err(EngineFault::EventOutOfRange);
        }
        Ok(self.numbers[event])
    }
}
