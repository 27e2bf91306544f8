// The precedence net of an engine.
ghost use Rattle.std.specs.Prelude.{◌≡◌, ℕ, true, ◌↔◌};
ghost use Rattle.net.specs.Answers.{Measured};
ghost use Rattle.engine.specs.Precedence.{Leads, joins_at as joined_at, precedes, one_each};
ghost use Rattle.engine.specs.Preceding.{precedes_inside, one_limited};

use crate::engine::DifferenceEngine;
use net::fault::WalkFault;
use net::longest::longest_way;
use net::nets::{Net, WeightedNet};

// The weight of every arc, so that the sum over a way is the number of its arcs.
const ONE_STEP: i32 = 1;

// The held differences of an engine as arcs between its events.
#[derive(Drop)]
pub struct PrecedenceNet<'a, E: DifferenceEngine> {
    engine: &'a E,
}

impl<'a, E: DifferenceEngine> PrecedenceNet<'a, E> {
    // The net of what the engine holds.
    #[tactic(auto, using(crate::specs::Preceding::precedes_told))]
    pub fn of(engine: &'a E) -> PrecedenceNet<'a, E>
        ensures content { result.engine.now ≡ engine.now }
        ensures arcs { (a b : ℕ) → (precedes (E.DifferenceEngine.state result.engine.now).held a b ≡ true) ↔ Leads (E.DifferenceEngine.state engine.now).held a b }
    {
        PrecedenceNet { engine }
    }

    // Whether the held difference at a place leads from the one event to the other.
    fn joins_at(&self, place: usize, from: usize, to: usize) -> bool
        ensures { result ≡ joined_at (E.DifferenceEngine.state self.now.engine.now).held place from to }
    {
        self.engine.held_at(place).is_ok_and(|difference| difference.from == from
            && difference.to == to)
    }

    // Whether a held difference leads from the one event to the other.
    fn leads(&self, from: usize, to: usize) -> bool
        ensures { result ≡ precedes (E.DifferenceEngine.state self.now.engine.now).held from to }
    {
        (0..self.engine.held_count()).any(|place| self.joins_at(place, from, to))
    }
}

impl<E: DifferenceEngine> Net for PrecedenceNet<'_, E> {
    ghost nodes = { λ n. (E.DifferenceEngine.state n.engine.now).events };

    ghost arc = { λ n. precedes (E.DifferenceEngine.state n.engine.now).held };

    ghost ranged = { λ n. (E.DifferenceEngine.sound n.engine.now).ranged };

    ghost inside = { λ n a b e. precedes_inside _ _ (E.DifferenceEngine.sound n.engine.now).lawful a b e };

    fn node_count(&self) -> usize {
        self.engine.event_count()
    }

    fn has_arc(&self, from: usize, to: usize) -> bool {
        self.leads(from, to)
    }
}

impl<E: DifferenceEngine> WeightedNet for PrecedenceNet<'_, E> {
    ghost weighs = { λ n. one_each };

    ghost limited = { λ n a b. one_limited };

    fn weight(&self, _from: usize, _to: usize) -> i32 {
        ONE_STEP
    }
}

// The longest way of the precedence net from an event, or none where it has a circle anywhere.
pub fn longest_precedence<E: DifferenceEngine>(
    engine: &E,
    marks: &mut [u8],
    from: usize,
) -> Result<Option<i32>, WalkFault>
    ensures { Measured (precedes (E.DifferenceEngine.state engine.now).held) one_each (E.DifferenceEngine.state engine.now).events from marks.old marks.new result }
{
    longest_way(&PrecedenceNet::of(engine), marks, from)
}
