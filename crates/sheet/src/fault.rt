// Why a sheet is not read, or a train's net not walked.
ghost use Rattle.std.specs.Prelude.{◌≡◌, Some};
ghost use Rattle.sheet.specs.declared.fault.TrainFault.TheVariants as train_faults;
ghost use Rattle.sheet.specs.declared.fault.SheetFault.TheVariants as sheet_faults;
ghost use Rattle.sheet.specs.Refusals.{told as told_sheet, told_train};
ghost use Rattle.sheet.specs.Words.{words, train_words};

use listing::fault::ListingFault;
use net::fault::{Fault, Layer, Refusal, WalkFault};
use std::error::Error;
use std::fmt;

// Why bytes are not a sheet.
#[derive(Clone, Copy, Debug, PartialEq, Eq)]
pub enum SheetFault {
    Walk(WalkFault),
    Listed(ListingFault),
    // The lowest train whose moves form a circle.
    Circle(usize),
    // The lowest start that conflicts with another.
    SharedStart(usize),
    TooManyConflicts,
}

impl From<WalkFault> for SheetFault {
    ghost from_gives = { λ e r. r ≡ sheet_faults.Walk e };

    fn from(cause: WalkFault) -> SheetFault {
        SheetFault::Walk(cause)
    }
}

impl From<ListingFault> for SheetFault {
    ghost from_gives = { λ e r. r ≡ sheet_faults.Listed e };

    fn from(cause: ListingFault) -> SheetFault {
        SheetFault::Listed(cause)
    }
}

impl Fault for SheetFault {
    ghost told = { told_sheet };

    fn refusal(&self) -> Refusal {
        let (number, place) = match *self {
            SheetFault::Walk(fault) => return fault.refusal(),
            SheetFault::Listed(fault) => return fault.refusal(),
            SheetFault::Circle(train) => (6, train),
            SheetFault::SharedStart(place) => (7, place),
            SheetFault::TooManyConflicts => (8, 0),
        };
        Refusal {
            number,
            layer: Layer::Sheet,
            place,
        }
    }
}

impl fmt::Display for SheetFault {
    ghost output = { λ f. Some (words f) };

    fn fmt<W: fmt::Write>(&self, f: &mut fmt::Formatter<W>) -> fmt::Result {
        match self {
            SheetFault::Walk(fault) => write!(f, "{fault}"),
            SheetFault::Listed(fault) => write!(f, "{fault}"),
            SheetFault::Circle(train) => write!(f, "the moves of train {train} form a circle"),
            SheetFault::SharedStart(place) => write!(
                f,
                "two trains start on the same block; the lowest such start is place {place}"
            ),
            SheetFault::TooManyConflicts => f.write_str("more than 1000 pairs of places conflict"),
        }
    }
}

impl Error for SheetFault {}

// Why a walk over the movement net of a train is refused.
#[derive(Clone, Copy, Debug, PartialEq, Eq)]
pub enum TrainFault {
    Walk(WalkFault),
    UnknownTrain(usize),
}

impl From<WalkFault> for TrainFault {
    ghost from_gives = { λ e r. r ≡ train_faults.Walk e };

    fn from(cause: WalkFault) -> TrainFault {
        TrainFault::Walk(cause)
    }
}

impl Fault for TrainFault {
    ghost told = { told_train };

    fn refusal(&self) -> Refusal {
        match self {
            TrainFault::Walk(fault) => fault.refusal(),
            TrainFault::UnknownTrain(train) => Refusal {
                number: 11,
                layer: Layer::Watch,
                place: *train,
            },
        }
    }
}

impl fmt::Display for TrainFault {
    ghost output = { λ f. Some (train_words f) };

    fn fmt<W: fmt::Write>(&self, f: &mut fmt::Formatter<W>) -> fmt::Result {
        match self {
            TrainFault::Walk(fault) => write!(f, "{fault}"),
            TrainFault::UnknownTrain(train) => write!(f, "there is no train {train}"),
        }
    }
}

impl Error for TrainFault {}
