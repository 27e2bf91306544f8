// What every engine that holds differences promises.
ghost use Rattle.std.specs.Prelude.{◌≡◌, length};
ghost use Rattle.engine.specs.States.{State, Sound, Wiped, Added, Dropped, Found, Numbered};

use crate::difference::Difference;
use crate::fault::EngineFault;

// Holds differences between n events, the newest last, and has a number for each event.
pub trait DifferenceEngine {
    // the number of events, the held differences, and the number of each event
    ghost state: { Self → State };

    // what each state keeps, so that code above need not ask to know it: no circle rises, and the numbers meet every held difference
    ghost sound: { (e : Self) → Sound (state e) };

    // Sets the number of events, and holds none.
    fn wipe(&mut self, events: usize) -> Result<(), EngineFault>
        ensures { Wiped events (state self.old) (state self.new) result };

    // Holds one difference more, unless a circle would sum above zero.
    fn add(&mut self, difference: Difference) -> Result<(), EngineFault>
        ensures { Added difference (state self.old) (state self.new) result };

    // Lets the newest difference go.
    fn drop_newest(&mut self) -> Result<(), EngineFault>
        ensures { Dropped (state self.old) (state self.new) result };

    fn event_count(&self) -> usize
        ensures { result ≡ (state self.now).events };

    fn held_count(&self) -> usize
        ensures { result ≡ length (state self.now).held };

    // The held difference at a place of the list.
    fn held_at(&self, place: usize) -> Result<Difference, EngineFault>
        ensures { Found place (state self.now).held result };

    // The number of an event.
    fn number(&self, event: usize) -> Result<i32, EngineFault>
        ensures { Numbered event (state self.now) result };
}
