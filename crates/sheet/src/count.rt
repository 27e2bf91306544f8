// How many places and moves there are.
ghost use Rattle.std.specs.Prelude.{◌≡◌, ◌<◌, ◌==◌};
ghost use Rattle.listing.specs.Listings.{yard};
ghost use Rattle.sheet.specs.Counts.{own_places, onward, moves};

use listing::content::Listing;
use listing::place::Destination;

// Whether a place belongs to a train.
fn is_owner(listing: &Listing, place: usize, train: usize) -> bool
    requires { place < (yard listing.now).places }
    ensures { result ≡ ((yard listing.now).owner place == train) }
{
    listing
        .place(place)
        .is_some_and(|found| found.train == train)
}

pub(crate) fn places_of(listing: &Listing, train: usize) -> usize
    ensures { result ≡ own_places (yard listing.now) train }
{
    // a sum and no count of those that pass, since it does not branch at each place
    (0..listing.place_count())
        .map(|place| usize::from(is_owner(listing, place, train)))
        .sum()
}

// How many moves lead from a place.
fn moves_from(listing: &Listing, place: usize) -> usize
    ensures { result ≡ onward (yard listing.now) place }
{
    let to_places = (0..listing.place_count())
        .filter(|&to| listing.has_move(place, Destination::Place(to)))
        .count();
    to_places + usize::from(listing.has_move(place, Destination::Out))
}

pub(crate) fn move_count(listing: &Listing) -> usize
    ensures { result ≡ moves (yard listing.now) }
{
    (0..listing.place_count())
        .map(|place| moves_from(listing, place))
        .sum()
}
