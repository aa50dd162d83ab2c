// How many messages a box may have.
ghost use Rattle.std.specs.Prelude.{◌≡◌, ◌<◌, ◌≤◌, MatchResult};
ghost use Rattle.carriers.specs.declared.refusal.CarrierRefusal.TheVariants.{OutOfRange};

use crate::refusal::CarrierRefusal;

/// The limit of an open box, 0 to 15. Made of any other number it is refused by 30.
#[derive(Clone, Copy)]
pub struct Limit {
    number: u8,
    ghost low: { number ≤ 15 },
}

impl Limit {
    /// The limit with a number that is in its range.
    pub(crate) fn new(number: u8) -> Limit
        requires low { number ≤ 15 }
        ensures answer { result.number ≡ number }
    {
        Limit { number }
    }
}

/// The number of a limit.
impl From<Limit> for u8 {
    ghost from_gives = { λ l n. n ≡ l.number };

    fn from(limit: Limit) -> u8 {
        limit.number
    }
}

/// The limit with a number; refused by 30 above 15.
impl TryFrom<u8> for Limit {
    type Error = CarrierRefusal;

    ghost try_from_gives = { λ l r. MatchResult r (λ x. (l ≤ 15) × (x.number ≡ l)) (λ e. (15 < l) × (e ≡ OutOfRange)) };

    fn try_from(number: u8) -> Result<Limit, CarrierRefusal> {
        if number > 15 {
            return Err(CarrierRefusal::OutOfRange);
        }
        Ok(Limit { number })
    }
}
