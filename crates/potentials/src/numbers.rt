// Numbers of events, raised pass by pass until they meet every difference.
ghost use Rattle.std.specs.Prelude.{◌≤◌, [], ◌∷◌, ◌++◌, length, pos, ◌≤ℤ◌};
ghost use Rattle.engine.specs.Circles.{Among, Small, Lawful, NoRisingCircle};
ghost use Rattle.potentials.specs.Numbers.{number, Tops, Relaxed, Floor, Ceiling, Passed, Settled};

use engine::difference::{Difference, MOST_EVENTS};

// Held differences among which no circle rises, and the numbers of the events at the greatest sums of their walks.
#[derive(Clone, Copy)]
pub(crate) struct Level<'a> {
    pub(crate) numbers: &'a [i32; MOST_EVENTS],
    pub(crate) held: &'a [Difference],
    ghost few: { length held.now ≤ 1100 },
    ghost lawful: { Lawful 96 held.now },
    ghost level: { NoRisingCircle held.now },
    ghost told: { Tops held.now numbers.now },
}

impl<'a> Level<'a> {
    // The numbers with one difference more, or none where a circle rises with it.
    pub(crate) fn settle(self, difference: Difference) -> Option<[i32; MOST_EVENTS]>
        requires { Among 96 difference × Small difference }
        ensures { Settled (self.entry.held.now ++ (difference ∷ [])) result }
    {
        let mut raised = *self.numbers;
        if !relax(&mut raised, difference) {
            return Some(raised);
        }
        // where no circle rises, the last of so many passes raises nothing
        for _ in 0..MOST_EVENTS {
            // the raise has come round to where it started
            if raised[difference.from] > self.numbers[difference.from] {
                return None;
            }
            if !self.pass(&mut raised) {
                return Some(raised);
            }
        }
        None
    }

    // One pass over the held differences; says whether a number rose.
    fn pass(self, raised: &mut [i32; MOST_EVENTS]) -> bool
        requires low { Floor raised.old }
        requires high { Ceiling 900000000 raised.old }
        ensures { Passed self.entry.held.now raised.old raised.new result }
    {
        // compared at the end, since a flag in the loop costs more
        let before = *raised;
        for &difference in self.held {
            relax(raised, difference);
        }
        *raised != before
    }
}

// Raises the number of the difference's end where it is too low; says whether it was.
fn relax(numbers: &mut [i32; MOST_EVENTS], difference: Difference) -> bool
    requires lawful { Among 96 difference × Small difference }
    requires low { pos 0 ≤ℤ number numbers.old difference.from }
    requires high { number numbers.old difference.from ≤ℤ pos 1000000000 }
    ensures { Relaxed difference numbers.old numbers.new result }
{
    let least = numbers[difference.from] + difference.k;
    let too_low = numbers[difference.to] < least;
    if too_low {
        numbers[difference.to] = least;
    }
    too_low
}
