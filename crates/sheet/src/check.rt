// The rules of the whole yard, checked over the listed content.
ghost use Rattle.std.specs.Prelude.{◌≡◌, ◌<◌, MatchOption};
ghost use Rattle.listing.specs.Listings.{yard};
ghost use Rattle.listing.specs.Scans.{any};
ghost use Rattle.listing.specs.Yards.{start as lowest_place};
ghost use Rattle.sheet.specs.Conflicts.{conflict};
ghost use Rattle.sheet.specs.Lawful.{SharesStart, StartsApart, FirstShared};
ghost use Rattle.sheet.specs.Checks.{Decides, CirclesSearched};

use crate::conflict::in_conflict;
use crate::movement::MovementNet;
use listing::content::Listing;
use net::circle::find_circle;
use net::fault::WalkFault;

// The lowest train whose moves form a circle.
pub(crate) fn first_circle(listing: &Listing, marks: &mut [u8]) -> Result<Option<usize>, WalkFault>
    ensures { CirclesSearched (yard listing.now) marks.old marks.new result }
{
    // a loop and no chain, since it lends the marks and passes a refusal on
    for train in 0..listing.train_count() {
        if find_circle(&MovementNet::of(listing, train), marks)?.is_some() {
            return Ok(Some(train));
        }
    }
    Ok(None)
}

// Whether a place conflicts with the start of a train.
fn meets_start(listing: &Listing, place: usize, train: usize) -> bool
    requires { train < (yard listing.now).trains }
    ensures { result ≡ conflict (yard listing.now) place (lowest_place (yard listing.now) train) }
{
    listing
        .start(train)
        .is_some_and(|start| in_conflict(listing, place, start))
}

// Whether a place conflicts with the start of any train.
fn meets_any_start(listing: &Listing, place: usize) -> bool
    ensures { result ≡ any (yard listing.now).trains (λ u. conflict (yard listing.now) place (lowest_place (yard listing.now) u)) }
{
    (0..listing.train_count()).any(|train| meets_start(listing, place, train))
}

// Whether a place is the start of its train and conflicts with another start.
#[tactic(auto, using(crate::proofs::Starts::decide_shared, crate::proofs::Starts::start_told, crate::specs::Moving::shaped))]
fn shares_start(listing: &Listing, place: usize) -> bool
    ensures { Decides result (SharesStart (yard listing.now) place) }
{
    let Some(found) = listing.place(place) else {
        return false;
    };
    listing.start(found.train) == Some(place) && meets_any_start(listing, place)
}

// The lowest start that conflicts with another.
pub(crate) fn first_shared_start(listing: &Listing) -> Option<usize>
    ensures { MatchOption result (StartsApart (yard listing.now)) (FirstShared (yard listing.now)) }
{
    (0..listing.place_count()).find(|&place| shares_start(listing, place))
}
