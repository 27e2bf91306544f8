// Conflict of places.
ghost use Rattle.std.specs.Prelude.{◌≡◌};
ghost use Rattle.blocks.specs.Members.{tally};
ghost use Rattle.listing.specs.Listings.{yard};
ghost use Rattle.sheet.specs.Conflicts.{conflict, pairs};

use listing::content::Listing;

// Whether two places conflict.
#[tactic(auto, using(crate::proofs::Conflicting::conflict_computed))]
pub(crate) fn in_conflict(listing: &Listing, first: usize, second: usize) -> bool
    ensures { result ≡ conflict (yard listing.now) first second }
{
    let Some(a) = listing.place(first) else {
        return false;
    };
    let Some(c) = listing.place(second) else {
        return false;
    };
    a.train != c.train && a.blocks.shares(c.blocks)
}

// How many places below the given one conflict with it.
fn conflicts_below(listing: &Listing, place: usize) -> usize
    ensures { result ≡ tally place (λ a. conflict (yard listing.now) a place) }
{
    (0..place)
        .filter(|&other| in_conflict(listing, other, place))
        .count()
}

// How many pairs of places conflict.
pub(crate) fn conflict_count(listing: &Listing) -> usize
    ensures { result ≡ pairs (yard listing.now) }
{
    (0..listing.place_count())
        .map(|place| conflicts_below(listing, place))
        .sum()
}
