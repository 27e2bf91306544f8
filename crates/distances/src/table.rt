// The greatest sums over the walks between every two events.
ghost use Rattle.std.specs.Prelude.{◌≡◌, ℕ, ◌+◌, ◌*◌, ◌<◌, ◌≤◌, None, length, slice_index_or};
ghost use Rattle.engine.specs.Circles.{Among, Small};
ghost use Rattle.engine.specs.Lists.{held_in};
ghost use Rattle.engine.specs.States.{Ranged};
ghost use Rattle.engine.specs.Ways.{unheld, raised, ways, peak};
ghost use Rattle.distances.specs.Tables.{Tabled, entry, Bounded, AllBounded, SmallStep, RowRaised};

use crate::level::LevelList;
use crate::way::{empty_way, greater_of, higher_of, sum_over};
use engine::difference::{Difference, MOST_EVENTS};

// The places of the largest table.
const PLACES: usize = MOST_EVENTS * MOST_EVENTS;

// The sums stand in the first places: a row for each start, with a column for each end.
#[derive(Drop)]
pub(crate) struct Table {
    events: usize,
    sums: [Option<i32>; PLACES],
    ghost few: { events ≤ 96 },
    ghost sized: { length sums ≡ 9216 },
}

impl Table {
    // A table of no events.
    pub(crate) fn new() -> Table {
        Table {
            events: 0,
            sums: [None; PLACES],
        }
    }

    // The greatest sum over the walks from `x` to `y`, if there is one.
    pub(crate) fn sum(&self, x: usize, y: usize) -> Option<i32>
        requires { (x < self.now.events) × (y < self.now.events) }
        ensures { result ≡ entry self.now.events self.now.sums x y }
    {
        self.sums[x * self.events + y]
    }

    // Sets the number of events, between which there are only the walks of no differences.
    fn clear(&mut self, events: usize)
        requires { Ranged events }
        ensures events { self.new.events ≡ events }
        ensures sums { Tabled events unheld self.new.sums }
    {
        self.events = events;
        for (place, sum) in self.sums[0..events * events].iter_mut().enumerate() {
            *sum = empty_way(place / events, place % events);
        }
    }

    // A copy of the ways out of `event`.
    fn row(&self, event: usize) -> [Option<i32>; MOST_EVENTS]
        requires { event < self.now.events }
        ensures { (y : ℕ) → y < self.now.events → slice_index_or result y None ≡ entry self.now.events self.now.sums event y }
    {
        let start = event * self.events;
        let mut out = [None; MOST_EVENTS];
        out[..self.events].copy_from_slice(&self.sums[start..start + self.events]);
        out
    }

    // One difference more, for the ways from `x`: `into` is the way from there to the difference, `out` are the ways on from it.
    fn raise_row(&mut self, x: usize, into: Option<i32>, k: i32, out: &[Option<i32>; MOST_EVENTS])
        requires start { x < self.old.events }
        requires left { Bounded into }
        requires right { (y : ℕ) → y < self.old.events → Bounded (slice_index_or out.now y None) }
        requires between { SmallStep k }
        ensures events { self.new.events ≡ self.old.events }
        ensures sums { RowRaised self.old.events x into k out.now self.old.sums self.new.sums }
    {
        // most rows have no way to the difference
        if into.is_none() {
            return;
        }
        let start = x * self.events;
        for (y, sum) in self.sums[start..start + self.events].iter_mut().enumerate() {
            *sum = greater_of(*sum, sum_over(into, k, out[y]));
        }
    }

    // One difference more.
    pub(crate) fn raise(&mut self, difference: Difference)
        requires among { Among self.old.events difference }
        requires small { Small difference }
        requires bounded { AllBounded self.old.events self.old.sums }
        ensures events { self.new.events ≡ self.old.events }
        ensures sums { Tabled self.old.events (raised (entry self.old.events self.old.sums) difference) self.new.sums }
    {
        // a copy, since the row changes when its turn comes
        let out = self.row(difference.to);
        // a loop and no chain, since each row is read and then written
        for x in 0..self.events {
            let into = self.sum(x, difference.from);
            self.raise_row(x, into, difference.k, &out);
        }
    }

    // The table of a list.
    pub(crate) fn rebuild(&mut self, list: &LevelList)
        ensures events { self.new.events ≡ list.now.differences.events }
        ensures sums { Tabled list.now.differences.events (ways (held_in list.now.differences)) self.new.sums }
    {
        self.clear(list.differences.events());
        for difference in list.differences.held() {
            self.raise(*difference);
        }
    }

    // The greatest of 0 and the ways into `event`.
    pub(crate) fn highest(&self, event: usize) -> i32
        requires { event < self.now.events }
        ensures { result ≡ peak (λ x. entry self.now.events self.now.sums x event) self.now.events }
    {
        (0..self.events)
            .map(|x| self.sum(x, event))
            .fold(0, higher_of)
    }
}
