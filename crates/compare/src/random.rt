// Numbers that look random, in the same order in every run.
ghost use Rattle.std.specs.Prelude.{◌<◌};

use engine::difference::Difference;

#[derive(Drop)]
pub(crate) struct Random {
    state: u32,
}

impl Random {
    pub(crate) fn new() -> Random {
        Random { state: 1 }
    }

    // A number below the limit; 0 below a limit of 0.
    pub(crate) fn below(&mut self, limit: usize) -> usize
        ensures { 0 < limit → result < limit }
    {
        self.state = self.state.wrapping_mul(1664525).wrapping_add(1013904223);
        if limit == 0 {
            return 0;
        }
        // the low bits of such a row repeat soon
        (self.state / 65536) as usize % limit
    }

    // A difference, mostly lawful: now and then k is out of range, or there is no such event.
    pub(crate) fn difference(&mut self, events: usize) -> Difference {
        let from = self.below(events);
        let mut to = self.below(events);
        if self.below(50) == 0 {
            to = events;
        }
        let k = self.below(1901) as i32 - 1050;
        Difference { from, to, k }
    }

    // A difference of k = 1, as two arrivals have it of which one comes first.
    pub(crate) fn precedence(&mut self, events: usize) -> Difference {
        Difference {
            from: self.below(events),
            to: self.below(events),
            k: 1,
        }
    }
}
