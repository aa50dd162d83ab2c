// Which of the 64 boxes is meant.
ghost use Rattle.std.specs.Prelude.{◌≡◌, ◌<◌, MatchResult};
ghost use Rattle.carriers.specs.Calls.{AskRefused};

use crate::refusal::CarrierRefusal;

/// The number of a box, 0 to 63. Made of any other it is refused by 30.
#[derive(Clone, Copy)]
pub struct BoxNumber {
    number: u8,
    ghost below: { number < 64 },
}

impl BoxNumber {
    /// Where what belongs to the box stands in a table.
    pub fn index(self) -> usize
        ensures answer { result ≡ self.number }
    {
        self.number as usize
    }
}

/// The number of a box.
impl From<BoxNumber> for u8 {
    ghost from_gives = { λ b n. n ≡ b.number };

    fn from(which: BoxNumber) -> u8 {
        which.number
    }
}

/// The box with a number; refused by 30 above 63.
impl TryFrom<u8> for BoxNumber {
    type Error = CarrierRefusal;

    ghost try_from_gives = { λ b r. MatchResult r (λ x. (b < 64) × (x.number ≡ b)) (AskRefused b) };

    fn try_from(number: u8) -> Result<BoxNumber, CarrierRefusal> {
        if number > 63 {
            return Err(CarrierRefusal::OutOfRange);
        }
        Ok(BoxNumber { number })
    }
}
