// Two engines that get the same calls.
use crate::random::Random;
use crate::tally::Tally;
use engine::difference::Difference;
use engine::engine::DifferenceEngine;

// Each call is written out, since no closure takes engines of both types.
#[derive(Drop)]
struct Pair<'a, A: DifferenceEngine, B: DifferenceEngine> {
    one: &'a mut A,
    other: &'a mut B,
    tally: Tally,
}

impl<A: DifferenceEngine, B: DifferenceEngine> Pair<'_, A, B> {
    fn wipe(&mut self, events: usize) {
        let answer = self.one.wipe(events);
        let other = self.other.wipe(events);
        self.tally.note_agreement(answer == other);
    }

    fn add(&mut self, difference: Difference) {
        let answer = self.one.add(difference);
        let other = self.other.add(difference);
        self.tally.note_agreement(answer == other);
        self.tally.note_add(answer);
    }

    fn drop_newest(&mut self) {
        let answer = self.one.drop_newest();
        let other = self.other.drop_newest();
        self.tally.note_agreement(answer == other);
        self.tally.note_drop(answer);
    }

    // Both makes have the least numbers, so these agree too, though no engine has to answer the least.
    fn compare_numbers(&mut self, events: usize) {
        let differing = (0..events)
            .filter(|&event| self.one.number(event) != self.other.number(event))
            .count();
        self.tally.note_differing(differing);
    }
}

// Wipes both engines, and makes the same calls of both.
pub(crate) fn compare<A: DifferenceEngine, B: DifferenceEngine>(
    one: &mut A,
    other: &mut B,
    events: usize,
    turns: u32,
) -> Tally {
    let mut random = Random::new();
    let mut pair = Pair {
        one,
        other,
        tally: Tally::default(),
    };
    pair.wipe(events);
    for _ in 0..turns {
        if random.below(5) < 2 {
            pair.drop_newest();
        } else {
            pair.add(random.difference(events));
        }
        pair.compare_numbers(events);
    }
    pair.tally
}
