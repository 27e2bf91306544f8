// The difference engine with a table of sums.
ghost use Rattle.std.specs.Prelude.{◌≡◌};
ghost use Rattle.engine.specs.Lists.{held_in};
ghost use Rattle.engine.specs.Ways.{ways};
ghost use Rattle.distances.specs.Tables.{Tabled};

use crate::level::LevelList;
use crate::table::Table;

pub mod calls;

// The held differences, and for every two events the greatest sum over the walks from one to the other.
#[derive(Drop)]
pub struct DistanceEngine {
    list: LevelList,
    table: Table,
    ghost sized: { table.events ≡ list.differences.events },
    ghost told: { Tabled list.differences.events (ways (held_in list.differences)) table.sums },
}
