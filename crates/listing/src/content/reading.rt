// A listing from a sheet's bytes.
ghost use Rattle.std.specs.Prelude.{◌≡◌, ◌<◌, ◌≤◌, true, ◌↔◌, length, is_ok, IfOk, Err, slice_index_or};
ghost use Rattle.bounded.specs.Items.{items};
ghost use Rattle.listing.specs.declared.fault.ListingFault.{ListingFault as Fault};
ghost use Rattle.listing.specs.Scans.{Each};
ghost use Rattle.listing.specs.Yards.{Same};
ghost use Rattle.listing.specs.Listings.{yard};
ghost use Rattle.listing.specs.Bytes.{yard_in, listed, set_at, end_at, PlaceIn, MoveIn};
ghost use Rattle.listing.specs.Order.{AllHold};
ghost use Rattle.listing.specs.Rules.{Holds, rules, WellListed, StopsAt};

use crate::bytes::Input;
use crate::check::check;
use crate::content::Listing;
use crate::fault::ListingFault;
use crate::place::{Destination, Move, Place};
use blocks::Blocks;
use bounded::list::BoundedList;

fn place_at(input: &Input<'_>, place: usize) -> Place
    requires sized { place < (yard_in input.now).places }
    requires few { (yard_in input.now).places ≤ 84 }
    requires there { set_at input.now (yard_in input.now).places ≤ length input.now }
    ensures { PlaceIn input.now place result }
{
    Place {
        train: input.owner(place),
        blocks: Blocks::from_bits(input.blocks(place)),
    }
}

fn move_at(input: &Input<'_>, index: usize) -> Move
    requires sized { index < listed input.now }
    requires few { listed input.now ≤ 200 }
    requires there { end_at input.now ≤ length input.now }
    ensures { MoveIn input.now index result }
{
    Move {
        from: input.from(index),
        to: input.to(index),
    }
}

// The items from number 0 up to below a count, in order.
fn listed_items<T: Copy, const N: usize, F: Fn(usize) -> T>(
    count: usize,
    blank: T,
    item: F,
) -> BoundedList<T, N>
    requires few { count ≤ N }
    requires callable { Each count (F.pre item) }
    ensures size { length (items result) ≡ count }
    ensures each { (d : T) → Each count (λ i. F.post item i (slice_index_or (items result) i d)) }
{
    let mut list = BoundedList::new(blank);
    // a bounded list is filled by pushes
    for i in 0..count {
        list.push(item(i)).unwrap();
    }
    list
}

// What bytes that keep the rules say.
fn listing_in(input: &Input<'_>) -> Listing
    requires { AllHold (Holds input.now) rules }
    ensures { Same (yard_in input.now) (yard result) }
{
    let no_place = Place {
        train: 0,
        blocks: Blocks::from_bits(0),
    };
    let no_move = Move {
        from: 0,
        to: Destination::Out,
    };
    let places = listed_items(input.places(), no_place, |place| place_at(input, place));
    let moves = listed_items(input.moves(), no_move, |index| move_at(input, index));
    Listing {
        train_count: input.trains(),
        places,
        moves,
    }
}

// What the bytes say, or the first rule that they break.
fn read_from(input: &Input<'_>) -> Result<Listing, ListingFault>
    ensures accepted { (is_ok result ≡ true) ↔ WellListed input.now }
    ensures refused { (f : Fault) → (result ≡ Err f) ↔ StopsAt input.now f }
    ensures content { IfOk result (λ l. Same (yard_in input.now) (yard l)) }
{
    check(input)?;
    Ok(listing_in(input))
}

impl Listing {
    // The listing that the bytes say, or the first rule that they break.
    pub fn read(input: &[u8]) -> Result<Listing, ListingFault>
        ensures accepted { (is_ok result ≡ true) ↔ WellListed input.now }
        ensures refused { (f : Fault) → (result ≡ Err f) ↔ StopsAt input.now f }
        ensures content { IfOk result (λ l. Same (yard_in input.now) (yard l)) }
    {
        read_from(&Input(input))
    }
}
