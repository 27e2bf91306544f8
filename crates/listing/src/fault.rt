// Why bytes are not a listing.
ghost use Rattle.std.specs.Prelude.{◌≡◌, Some};
ghost use Rattle.listing.specs.declared.fault.ListingFault.TheVariants as faults;
ghost use Rattle.listing.specs.Refusals.{bytes_told, told as told_listing};
ghost use Rattle.listing.specs.Words.{bytes_words, words};

use net::fault::{Fault, Layer, Refusal};
use std::error::Error;
use std::fmt;

// What is wrong with the length of the input.
#[derive(Clone, Copy, Debug, PartialEq, Eq)]
pub enum BytesFault {
    // The input ends, at this length, before a size or an array does.
    Ended(usize),
    // The offset of the first byte behind the last move.
    LeftOver(usize),
}

// What is wrong with the input, and the offset where it is.
#[derive(Clone, Copy, Debug, PartialEq, Eq)]
pub enum ListingFault {
    Bytes(BytesFault),
    // A size out of its range.
    Size(usize),
    // A place of a train that there is not.
    UnknownTrain(usize),
    TrainWithoutPlace,
    // A place without a block.
    EmptySet(usize),
    // A move from no place.
    NoSuchOrigin(usize),
    // A move to no place, and not out either.
    NoSuchDestination(usize),
    // A move between places of two trains.
    OtherTrain(usize),
}

impl From<BytesFault> for ListingFault {
    ghost from_gives = { λ e r. r ≡ faults.Bytes e };

    fn from(cause: BytesFault) -> ListingFault {
        ListingFault::Bytes(cause)
    }
}

impl Fault for BytesFault {
    ghost told = { bytes_told };

    fn refusal(&self) -> Refusal {
        let (number, place) = match *self {
            BytesFault::Ended(length) => (1, length),
            BytesFault::LeftOver(offset) => (9, offset),
        };
        Refusal {
            number,
            layer: Layer::Bytes,
            place,
        }
    }
}

impl Fault for ListingFault {
    ghost told = { told_listing };

    fn refusal(&self) -> Refusal {
        let (number, place) = match *self {
            ListingFault::Bytes(fault) => return fault.refusal(),
            ListingFault::Size(offset) => (2, offset),
            ListingFault::UnknownTrain(offset) => (3, offset),
            ListingFault::TrainWithoutPlace => (3, 0),
            ListingFault::EmptySet(offset) => (4, offset),
            ListingFault::NoSuchOrigin(offset)
            | ListingFault::NoSuchDestination(offset)
            | ListingFault::OtherTrain(offset) => (5, offset),
        };
        Refusal {
            number,
            layer: Layer::Sheet,
            place,
        }
    }
}

impl fmt::Display for BytesFault {
    ghost output = { λ f. Some (bytes_words f) };

    fn fmt<W: fmt::Write>(&self, f: &mut fmt::Formatter<W>) -> fmt::Result {
        match self {
            BytesFault::Ended(length) => write!(
                f,
                "the input ends after {length} bytes, before a size or an array does"
            ),
            BytesFault::LeftOver(offset) => write!(
                f,
                "bytes are left over from offset {offset} on"
            ),
        }
    }
}

impl fmt::Display for ListingFault {
    ghost output = { λ f. Some (words f) };

    fn fmt<W: fmt::Write>(&self, f: &mut fmt::Formatter<W>) -> fmt::Result {
        match self {
            ListingFault::Bytes(fault) => write!(f, "{fault}"),
            ListingFault::Size(offset) => write!(
                f,
                "the number at offset {offset} is out of its range"
            ),
            ListingFault::UnknownTrain(offset) => write!(
                f,
                "the place at offset {offset} belongs to no train"
            ),
            ListingFault::TrainWithoutPlace => f.write_str("a train has no place"),
            ListingFault::EmptySet(offset) => write!(
                f,
                "the place whose set is at offset {offset} covers no block"
            ),
            ListingFault::NoSuchOrigin(offset) => write!(
                f,
                "the move whose from is at offset {offset} leaves no place"
            ),
            ListingFault::NoSuchDestination(offset) => write!(
                f,
                "the move whose to is at offset {offset} leads neither to a place nor out"
            ),
            ListingFault::OtherTrain(offset) => write!(
                f,
                "the move whose from is at offset {offset} joins places of two trains"
            ),
        }
    }
}

impl Error for BytesFault {}

impl Error for ListingFault {}
