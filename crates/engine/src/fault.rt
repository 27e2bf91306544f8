// Why an engine refuses.
ghost use Rattle.std.specs.Prelude.{◌≡◌, Some};
ghost use Rattle.engine.specs.declared.fault.EngineFault.TheVariants as faults;
ghost use Rattle.engine.specs.Refusals.{told as told_engine};
ghost use Rattle.engine.specs.Words.{words};

use bounded::list::Full;
use net::fault::{Fault, Layer, Refusal};
use std::error::Error;
use std::fmt;

#[derive(Clone, Copy, Debug, PartialEq, Eq)]
pub enum EngineFault {
    // No such event, or a number of events that no engine has.
    EventOutOfRange,
    // k beyond -1,000 to 1,000.
    KOutOfRange,
    // 1,100 differences are held.
    Full,
    // A circle would sum above zero.
    RisingCircle,
    // Nothing to drop, or no such held difference.
    NoneHeld,
}

impl From<Full> for EngineFault {
    ghost from_gives = { λ _ r. r ≡ faults.Full };

    fn from(_cause: Full) -> Self {
        Self::Full
    }
}

impl Fault for EngineFault {
    ghost told = { told_engine };

    fn refusal(&self) -> Refusal {
        let number = match self {
            EngineFault::EventOutOfRange => 20,
            EngineFault::KOutOfRange => 21,
            EngineFault::Full => 22,
            EngineFault::RisingCircle => 23,
            EngineFault::NoneHeld => 24,
        };
        Refusal {
            number,
            layer: Layer::Engine,
            place: 0,
        }
    }
}

impl fmt::Display for EngineFault {
    ghost output = { λ f. Some (words f) };

    fn fmt<W: fmt::Write>(&self, f: &mut fmt::Formatter<W>) -> fmt::Result {
        f.write_str(match self {
            EngineFault::EventOutOfRange =>
                "there is no such event, or no engine has that number of events",
            EngineFault::KOutOfRange => "k is not from -1000 to 1000",
            EngineFault::Full => "1100 differences are held",
            EngineFault::RisingCircle => "a circle would sum above zero",
            EngineFault::NoneHeld => "no such difference is held",
        })
    }
}

impl Error for EngineFault {}
