// How the content is read.
ghost use Rattle.std.specs.Prelude.{◌≡◌, ◌<◌, ◌≤◌, ◌≢◌, [], ◌∷◌, MatchOption};
ghost use Rattle.bounded.specs.Items.{items};
ghost use Rattle.listing.specs.Yards.{start as lowest_place, Same};
ghost use Rattle.listing.specs.Listings.{yard, Read, lone, fresh};

use crate::content::Listing;
use crate::place::{Destination, Move, Place};
use blocks::Blocks;
use bounded::list::BoundedList;

fn list_of_one<T: Copy, const N: usize>(item: T) -> BoundedList<T, N>
    requires { 0 < N }
    ensures { items result ≡ item ∷ [] }
{
    let mut list = BoundedList::new(item);
    list.push(item).unwrap();
    list
}

// One train in these blocks with one move, out.
fn lone_train(bits: u64) -> Listing
    requires { bits ≢ 0 }
    ensures { Same (lone bits) (yard result) }
{
    let places = list_of_one(Place {
        train: 0,
        blocks: Blocks::from_bits(bits),
    });
    let moves = list_of_one(Move {
        from: 0,
        to: Destination::Out,
    });
    Listing {
        train_count: 1,
        places,
        moves,
    }
}

impl Listing {
    // One train in block 0 with one move, out.
    pub fn smallest() -> Listing
        ensures { Same fresh (yard result) }
    {
        lone_train(1)
    }

    pub fn train_count(&self) -> usize
        ensures value { result ≡ (yard self.now).trains }
        ensures range { (1 ≤ result) × (result ≤ 12) }
    {
        self.train_count
    }

    pub fn place_count(&self) -> usize
        ensures value { result ≡ (yard self.now).places }
        ensures range { result ≤ 84 }
    {
        self.places.len()
    }

    // inlined, since the count of conflicts asks it for every pair of places
    #[inline(always)]
    pub fn place(&self, place: usize) -> Option<Place>
        ensures { Read (yard self.now) place result }
    {
        self.places.as_slice().get(place).copied()
    }

    #[tactic(auto, using(crate::proofs::Listed::any_leads, crate::proofs::Listed::leads_on, crate::proofs::Listed::leads_past))]
    pub fn has_move(&self, from: usize, to: Destination) -> bool
        ensures { result ≡ (yard self.now).move from to }
    {
        let moves = self.moves.as_slice();
        // by number: the check follows a loop from its first number, but can't tell what a chain skips
        for index in 0..moves.len() {
            if moves[index] == (Move { from, to }) {
                return true;
            }
        }
        false
    }

    // The start of a train: its lowest-numbered place.
    #[tactic(auto, using(crate::proofs::Listed::start_known, crate::proofs::Listed::owner_known, std::proofs::lemmas::Grind::common_steps))]
    pub fn start(&self, train: usize) -> Option<usize>
        ensures { MatchOption result ((yard self.now).trains ≤ train) (λ p. (train < (yard self.now).trains) × (p < (yard self.now).places) × (p ≡ lowest_place (yard self.now) train)) }
    {
        let places = self.places.as_slice();
        // by number, as in `has_move`
        for place in 0..places.len() {
            if places[place].train == train {
                return Some(place);
            }
        }
        None
    }
}
