// Whether bytes keep the rules of a listing, checked in the order of the rules.
ghost use Rattle.std.specs.Prelude.{◌≡◌, ◌+◌, ◌<◌, ◌≤◌, true, ◌≢◌, ◌↔◌, length, MatchResult};
ghost use Rattle.listing.specs.declared.fault.BytesFault.TheVariants as lengths;
ghost use Rattle.listing.specs.declared.fault.ListingFault.TheVariants as faults;
ghost use Rattle.listing.specs.Bytes.{yard_in, listed, set_at, owner_at, count_at, end_at};
ghost use Rattle.listing.specs.Yards.{start as lowest_place};
ghost use Rattle.listing.specs.Shape.{Placed};
ghost use Rattle.listing.specs.Rules.{Allowed, NotAllowed, Checked, train_rules, place_rules, owner_rules, set_rules, count_rules, move_rules, rules};

use crate::bytes::Input;
use crate::content::{MOST_MOVES, MOST_PLACES, MOST_TRAINS};
use crate::fault::{BytesFault, ListingFault};
use crate::place::Destination;

// Whether the input reaches up to an offset.
fn check_end(input: &Input<'_>, end: usize) -> Result<(), BytesFault>
    ensures { MatchResult result (λ _. end ≤ length input.now) (λ f. (length input.now < end) × (f ≡ lengths.Ended (length input.now))) }
{
    if input.len() < end {
        return Err(BytesFault::Ended(input.len()));
    }
    Ok(())
}

// Whether nothing lies behind an offset.
fn check_rest(input: &Input<'_>, end: usize) -> Result<(), BytesFault>
    ensures { MatchResult result (λ _. length input.now ≤ end) (λ f. (end < length input.now) × (f ≡ lengths.LeftOver end)) }
{
    if input.len() > end {
        return Err(BytesFault::LeftOver(end));
    }
    Ok(())
}

fn check_trains(input: &Input<'_>) -> Result<(), ListingFault>
    ensures { Checked input.now train_rules result }
{
    check_end(input, 1)?;
    let trains = input.trains();
    if trains < 1 || trains > MOST_TRAINS {
        return Err(ListingFault::Size(0));
    }
    Ok(())
}

fn check_places(input: &Input<'_>) -> Result<(), ListingFault>
    requires { 1 ≤ length input.now }
    ensures { Checked input.now place_rules result }
{
    check_end(input, 2)?;
    let places = input.places();
    if places < input.trains() || places > MOST_PLACES {
        return Err(ListingFault::Size(1));
    }
    Ok(())
}

// The train of the place is known.
fn check_owner(input: &Input<'_>, place: usize) -> Result<(), ListingFault>
    requires { (place < 256) × (2 + place < length input.now) }
    ensures { MatchResult result (λ _. (yard_in input.now).owner place < (yard_in input.now).trains) (λ f. ((yard_in input.now).trains ≤ (yard_in input.now).owner place) × (f ≡ faults.UnknownTrain (owner_at input.now place))) }
{
    if input.owner(place) >= input.trains() {
        return Err(ListingFault::UnknownTrain(input.owner_offset(place)));
    }
    Ok(())
}

// Whether some place belongs to a train.
fn has_place(input: &Input<'_>, train: usize) -> bool
    requires { (2 ≤ length input.now) × (owner_at input.now (yard_in input.now).places ≤ length input.now) }
    ensures { (result ≡ true) ↔ Placed (yard_in input.now) train }
{
    (0..input.places()).any(|place| input.owner(place) == train)
}

// The train has a place.
fn check_train(input: &Input<'_>, train: usize) -> Result<(), ListingFault>
    requires { (2 ≤ length input.now) × (owner_at input.now (yard_in input.now).places ≤ length input.now) }
    ensures { MatchResult result (λ _. Placed (yard_in input.now) train) (λ f. ((yard_in input.now).places ≤ lowest_place (yard_in input.now) train) × (f ≡ faults.TrainWithoutPlace)) }
{
    if !has_place(input, train) {
        return Err(ListingFault::TrainWithoutPlace);
    }
    Ok(())
}

fn check_owners(input: &Input<'_>) -> Result<(), ListingFault>
    requires { 2 ≤ length input.now }
    ensures { Checked input.now owner_rules result }
{
    let places = input.places();
    check_end(input, input.owner_offset(places))?;
    // loops, here and below: given as a closure to one function, the checks would tell too little of the first that fails
    for place in 0..places {
        check_owner(input, place)?;
    }
    for train in 0..input.trains() {
        check_train(input, train)?;
    }
    Ok(())
}

// The place has a block.
fn check_set(input: &Input<'_>, place: usize) -> Result<(), ListingFault>
    requires { (place < 256) × (2 ≤ length input.now) × (set_at input.now (place + 1) ≤ length input.now) }
    ensures { MatchResult result (λ _. (yard_in input.now).blocks place ≢ 0) (λ f. ((yard_in input.now).blocks place ≡ 0) × (f ≡ faults.EmptySet (set_at input.now place))) }
{
    if input.blocks(place) == 0 {
        return Err(ListingFault::EmptySet(input.set_offset(place)));
    }
    Ok(())
}

fn check_sets(input: &Input<'_>) -> Result<(), ListingFault>
    requires { 2 ≤ length input.now }
    ensures { Checked input.now set_rules result }
{
    let places = input.places();
    check_end(input, input.set_offset(places))?;
    for place in 0..places {
        check_set(input, place)?;
    }
    Ok(())
}

fn check_count(input: &Input<'_>) -> Result<(), ListingFault>
    requires { 2 ≤ length input.now }
    ensures { Checked input.now count_rules result }
{
    let offset = input.count_offset();
    check_end(input, offset + 1)?;
    if input.moves() > MOST_MOVES {
        return Err(ListingFault::Size(offset));
    }
    Ok(())
}

// The move is allowed.
fn check_move(input: &Input<'_>, index: usize) -> Result<(), ListingFault>
    requires { (index < 256) × (index < listed input.now) × (2 ≤ length input.now) × (end_at input.now ≤ length input.now) }
    ensures { MatchResult result (λ _. Allowed input.now index) (NotAllowed input.now index) }
{
    let places = input.places();
    let from = input.from(index);
    if from >= places {
        return Err(ListingFault::NoSuchOrigin(input.from_offset(index)));
    }
    let Destination::Place(to) = input.to(index) else {
        return Ok(());
    };
    if to >= places {
        return Err(ListingFault::NoSuchDestination(input.to_offset(index)));
    }
    if input.owner(from) != input.owner(to) {
        return Err(ListingFault::OtherTrain(input.from_offset(index)));
    }
    Ok(())
}

fn check_moves(input: &Input<'_>) -> Result<(), ListingFault>
    requires { (2 ≤ length input.now) × (count_at input.now + 1 ≤ length input.now) }
    ensures { Checked input.now move_rules result }
{
    let moves = input.moves();
    let end = input.count_offset() + 1 + 2 * moves;
    check_end(input, end)?;
    check_rest(input, end)?;
    for index in 0..moves {
        check_move(input, index)?;
    }
    Ok(())
}

// Whether the bytes keep all rules.
pub(crate) fn check(input: &Input<'_>) -> Result<(), ListingFault>
    ensures { Checked input.now rules result }
{
    check_trains(input)?;
    check_places(input)?;
    check_owners(input)?;
    check_sets(input)?;
    check_count(input)?;
    check_moves(input)
}
