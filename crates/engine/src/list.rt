// The differences that an engine holds.
ghost use Rattle.std.specs.Prelude.{◌≤◌};
ghost use Rattle.bounded.specs.Items.{items};
ghost use Rattle.engine.specs.Circles.{Lawful};

use crate::difference::{Difference, MOST_HELD};
use bounded::list::BoundedList;

pub mod calls;
pub mod getters;

// How many events there are, and the lawful differences between them that are held, the newest last.
#[derive(Drop)]
pub struct DifferenceList {
    events: usize,
    entries: BoundedList<Difference, MOST_HELD>,
    ghost ranged: { (1 ≤ events) × (events ≤ 96) },
    ghost lawful: { Lawful events (items entries) },
}
