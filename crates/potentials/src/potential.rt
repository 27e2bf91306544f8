// The engine's record.
ghost use Rattle.std.specs.Prelude.{◌≡◌, length};
ghost use Rattle.bounded.specs.Items.{items};
ghost use Rattle.engine.specs.Circles.{NoRisingCircle};
ghost use Rattle.engine.specs.Lists.{held_in};
ghost use Rattle.potentials.specs.Numbers.{Tops, Before};

use bounded::list::BoundedList;
use engine::difference::{MOST_EVENTS, MOST_HELD};
use engine::list::DifferenceList;

pub mod calls;

// Each event has as its number the greatest sum of the walks that end there, and zero counts as a walk.
#[derive(Drop)]
pub struct PotentialEngine {
    list: DifferenceList,
    numbers: [i32; MOST_EVENTS],
    // The numbers as they were before each held difference came.
    snapshots: BoundedList<[i32; MOST_EVENTS], MOST_HELD>,
    ghost level: { NoRisingCircle (held_in list) },
    ghost told: { Tops (held_in list) numbers },
    ghost paired: { length (items snapshots) ≡ length (held_in list) },
    ghost before: { Before (held_in list) (items snapshots) },
}
