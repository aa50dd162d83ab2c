// Why a carrier refuses a call.
ghost use Rattle.std.specs.Prelude.{◌≡◌, Some};
ghost use Rattle.carriers.specs.Calls.{refusal_number, refusal_text};

use std::error::Error;
use std::fmt;

/// A call that a carrier refuses. It leaves the carrier as it was.
#[derive(Clone, Copy, Debug, PartialEq, Eq)]
pub enum CarrierRefusal {
    /// 30: a box, limit, message or payload number is outside its range.
    OutOfRange,
    /// 31: the box is already open at `open`, or closed at `put`, `take` or `close`.
    OpenOrClosed,
    /// 32: the box is full at `put`, or empty at `take`.
    FullOrEmpty,
    /// 33: the limits exceed the carrier's spare.
    NoSpare,
}

/// The number of a refusal, 30 to 33.
impl From<CarrierRefusal> for u8 {
    ghost from_gives = { λ e n. n ≡ refusal_number e };

    fn from(refusal: CarrierRefusal) -> u8 {
        match refusal {
            CarrierRefusal::OutOfRange => 30,
            CarrierRefusal::OpenOrClosed => 31,
            CarrierRefusal::FullOrEmpty => 32,
            CarrierRefusal::NoSpare => 33,
        }
    }
}

/// A refusal as it is printed, by its number.
impl fmt::Display for CarrierRefusal {
    ghost output = { λ e. Some (refusal_text e) };

    fn fmt<W: fmt::Write>(&self, f: &mut fmt::Formatter<W>) -> fmt::Result {
        write!(f, "refused {}", u8::from(*self))
    }
}

impl Error for CarrierRefusal {}
