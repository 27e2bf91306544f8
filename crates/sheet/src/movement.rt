// The movement net of a train.
ghost use Rattle.std.specs.Prelude.{◌≡◌, ℕ, true, ◌↔◌};
ghost use Rattle.std.proofs.Common.{lit≤};
ghost use Rattle.listing.specs.Listings.{yard};
ghost use Rattle.sheet.specs.Movement.{arcs, Leads, weighs as weighing};
ghost use Rattle.sheet.specs.Moving.{arcs_inside, weighs_limited};

use listing::content::{Listing, MOST_PLACES};
use listing::place::Destination;
use net::nets::{MOST_NODES, Net, WeightedNet};

// The moves of a train as arcs: arrival at place p is node p, and train t out is node 84 + t.
#[derive(Clone, Copy)]
pub struct MovementNet<'a> {
    listing: &'a Listing,
    train: usize,
}

impl<'a> MovementNet<'a> {
    // The net of a train of the listing; of an unknown train it has no arcs.
    #[tactic(auto, using(crate::specs::Moving::arcs_told))]
    pub fn of(listing: &'a Listing, train: usize) -> MovementNet<'a>
        ensures content { result.listing.now ≡ listing.now }
        ensures train { result.train ≡ train }
        ensures moves { (a b : ℕ) → (arcs (yard result.listing.now) result.train a b ≡ true) ↔ Leads (yard listing.now) train a b }
    {
        MovementNet { listing, train }
    }

    // Whether a move of the train leads from the one node to the other.
    #[tactic(auto, unfolding(crate::specs::Movement::arcs))]
    fn leads(&self, from: usize, to: usize) -> bool
        ensures { result ≡ arcs (yard self.now.listing.now) self.now.train from to }
    {
        let Some(left) = self.listing.place(from) else {
            return false;
        };
        if left.train != self.train {
            return false;
        }
        if to < MOST_PLACES {
            return self.listing.has_move(from, Destination::Place(to));
        }
        to - MOST_PLACES == self.train && self.listing.has_move(from, Destination::Out)
    }

    // The blocks of the place entered that the place left lacks.
    #[tactic(auto, unfolding(crate::specs::Movement::weighs))]
    fn blocks_entered(&self, from: usize, to: usize) -> i32
        ensures { result ≡ weighing (yard self.now.listing.now) from to }
    {
        match (self.listing.place(from), self.listing.place(to)) {
            (Some(left), Some(entered)) => entered.blocks.count_not_in(left.blocks).cast_signed(),
            _ => 0,
        }
    }
}

impl Net for MovementNet<'_> {
    ghost nodes = { λ n. 96 };

    ghost arc = { λ n. arcs (yard n.listing.now) n.train };

    ghost ranged = { λ n. (lit≤ tt, lit≤ tt) };

    ghost inside = { λ n a b e. arcs_inside n.listing.now n.train a b e };

    fn node_count(&self) -> usize {
        MOST_NODES
    }

    fn has_arc(&self, from: usize, to: usize) -> bool {
        self.leads(from, to)
    }
}

impl WeightedNet for MovementNet<'_> {
    ghost weighs = { λ n. weighing (yard n.listing.now) };

    ghost limited = { λ n a b. weighs_limited (yard n.listing.now) a b };

    fn weight(&self, from: usize, to: usize) -> i32 {
        self.blocks_entered(from, to)
    }
}
