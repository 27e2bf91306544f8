// Refusals in plain words, as a program prints them.
use listing::fault::{BytesFault, ListingFault};
use net::fault::{Fault, WalkFault};
use sheet::fault::{SheetFault, TrainFault};
use std::test::Fail;

#[test]
fn of_sheets(rt: HostRuntime) -> Result<(), Fail> {
    let cases = [
        (
            SheetFault::Walk(WalkFault::ShortMarks),
            "refused 10 at 0: fewer than 96 mark bytes were lent",
        ),
        (
            SheetFault::Walk(WalkFault::NoSuchNode),
            "refused 20 at 0: a walk was to start outside its net",
        ),
        (
            SheetFault::Circle(1),
            "refused 6 at 1: the moves of train 1 form a circle",
        ),
        (
            SheetFault::SharedStart(7),
            "refused 7 at 7: two trains start on the same block; the lowest such start is place 7",
        ),
        (
            SheetFault::TooManyConflicts,
            "refused 8 at 0: more than 1000 pairs of places conflict",
        ),
    ];
    for (fault, text) in cases {
        let refusal = fault.refusal();
        let told = format!(in rt.alloc(); "{refusal}: {fault}")?;
        assert_eq!(rt; told.as_str(), text);
    }
    Ok(())
}

#[test]
fn of_listings(rt: HostRuntime) -> Result<(), Fail> {
    let cases = [
        (
            ListingFault::Bytes(BytesFault::Ended(5)),
            "refused 1 at 5: the input ends after 5 bytes, before a size or an array does",
        ),
        (
            ListingFault::Bytes(BytesFault::LeftOver(47)),
            "refused 9 at 47: bytes are left over from offset 47 on",
        ),
        (
            ListingFault::Size(0),
            "refused 2 at 0: the number at offset 0 is out of its range",
        ),
        (
            ListingFault::UnknownTrain(3),
            "refused 3 at 3: the place at offset 3 belongs to no train",
        ),
        (
            ListingFault::TrainWithoutPlace,
            "refused 3 at 0: a train has no place",
        ),
        (
            ListingFault::EmptySet(12),
            "refused 4 at 12: the place whose set is at offset 12 covers no block",
        ),
        (
            ListingFault::NoSuchOrigin(40),
            "refused 5 at 40: the move whose from is at offset 40 leaves no place",
        ),
        (
            ListingFault::NoSuchDestination(42),
            "refused 5 at 42: the move whose to is at offset 42 leads neither to a place nor out",
        ),
        (
            ListingFault::OtherTrain(40),
            "refused 5 at 40: the move whose from is at offset 40 joins places of two trains",
        ),
    ];
    for (fault, text) in cases {
        let fault = SheetFault::from(fault);
        let refusal = fault.refusal();
        let told = format!(in rt.alloc(); "{refusal}: {fault}")?;
        assert_eq!(rt; told.as_str(), text);
    }
    Ok(())
}

#[test]
fn of_trains(rt: HostRuntime) -> Result<(), Fail> {
    let fault = TrainFault::UnknownTrain(3);
    let told = format!(in rt.alloc(); "{}: {fault}", fault.refusal())?;
    assert_eq!(rt; told.as_str(), "refused 11 at 3: there is no train 3");
    let fault = TrainFault::from(WalkFault::NoSuchNode);
    let told = format!(in rt.alloc(); "{fault}")?;
    assert_eq!(rt; told.as_str(), "a walk was to start outside its net");
    Ok(())
}
