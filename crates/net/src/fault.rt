// Refusals, and the two that a walk can give.
ghost use Rattle.std.specs.Prelude.{◌≡◌, Some};
ghost use Rattle.net.specs.declared.fault.Refusal.{Refusal as Told};
ghost use Rattle.net.specs.Refusals.{told as told_walk};
ghost use Rattle.net.specs.Words.{refusal_words, words};

use std::error::Error;
use std::fmt;

// Where a fault is checked.
#[derive(Clone, Copy, Debug, PartialEq, Eq)]
pub enum Layer {
    Bytes,
    Sheet,
    Watch,
    Engine,
    Line,
}

// What every fault tells: its number, the layer that checks it, and its place. The number is printed, and no library goes by it.
#[derive(Clone, Copy, Debug, PartialEq, Eq)]
pub struct Refusal {
    pub number: u8,
    pub layer: Layer,
    pub place: usize,
}

impl fmt::Display for Refusal {
    ghost output = { λ r. Some (refusal_words r) };

    fn fmt<W: fmt::Write>(&self, f: &mut fmt::Formatter<W>) -> fmt::Result {
        write!(f, "refused {} at {}", self.number, self.place)
    }
}

// A reason to refuse, an enum of its own in each layer.
pub trait Fault {
    ghost told: { Self → Told };

    fn refusal(&self) -> Refusal
        ensures { result ≡ told self.now };
}

// Why a walk over a net is refused.
#[derive(Clone, Copy, Debug, PartialEq, Eq)]
pub enum WalkFault {
    // Fewer than 96 mark bytes.
    ShortMarks,
    // The node to start from is not in the net.
    NoSuchNode,
}

impl Fault for WalkFault {
    ghost told = { told_walk };

    fn refusal(&self) -> Refusal {
        match self {
            WalkFault::ShortMarks => Refusal {
                number: 10,
                layer: Layer::Watch,
                place: 0,
            },
            WalkFault::NoSuchNode => Refusal {
                number: 20,
                layer: Layer::Engine,
                place: 0,
            },
        }
    }
}

impl fmt::Display for WalkFault {
    ghost output = { λ f. Some (words f) };

    fn fmt<W: fmt::Write>(&self, f: &mut fmt::Formatter<W>) -> fmt::Result {
        f.write_str(match self {
            WalkFault::ShortMarks => "fewer than 96 mark bytes were lent",
            WalkFault::NoSuchNode => "a walk was to start outside its net",
        })
    }
}

impl Error for WalkFault {}
