// The listed content, which keeps the rules of its parts.
ghost use Rattle.std.specs.Prelude.{◌≤◌};
ghost use Rattle.listing.specs.Tables.{tabled};
ghost use Rattle.listing.specs.Shape.{Shaped};

use crate::place::{Move, Place};
use bounded::list::BoundedList;

pub mod getters;
pub mod reading;

pub const MOST_TRAINS: usize = 12;

pub const MOST_PLACES: usize = 84;

pub const MOST_MOVES: usize = 200;

// Trains, places and moves as listed.
#[derive(Clone, Copy)]
pub struct Listing {
    train_count: usize,
    places: BoundedList<Place, MOST_PLACES>,
    moves: BoundedList<Move, MOST_MOVES>,
    ghost trains_ranged: { (1 ≤ train_count) × (train_count ≤ 12) },
    ghost shaped: { ∥ Shaped (tabled train_count places.count places.entries moves.count moves.entries) ∥₁ },
}
