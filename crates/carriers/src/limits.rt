// Which boxes are open, with which limits, and how much of a pool is left.
ghost use Rattle.std.specs.Prelude.{◌≡◌, ◌+◌, ◌^◌, ◌<◌, length, replicate, Some, None, MatchResult, slice_index_or};
ghost use Rattle.carriers.specs.Calls.{AskRefused};
ghost use Rattle.carriers.specs.Limits.{limit_in, allotted, Low, ClosedRefused};

use crate::box_number::BoxNumber;
use crate::refusal::CarrierRefusal;

mod draw;

/// The limits of 64 boxes, none of a closed one. Each is drawn from one pool as its box is opened, and goes back to it as
/// the box is closed.
#[derive(Drop)]
pub struct Limits {
    /// The limit of each box, if it is open.
    limits: [Option<u8>; 64],
    /// What is left of the pool.
    spare: u16,
    ghost sizes: { length limits ≡ 64 },
    ghost low: { Low limits },
    ghost pool: { spare + allotted limits < 2 ^ 16 },
}

impl Limits {
    /// All boxes closed, and the whole pool spare.
    pub fn new(pool: u16) -> Limits
        ensures limits { result.limits ≡ replicate 64 None }
        ensures none { allotted result.limits ≡ 0 }
        ensures spare { result.spare ≡ pool }
    {
        Limits {
            limits: [None; 64],
            spare: pool,
        }
    }

    /// The limit of a box; 0 of a closed one. Refused by 30 for a box above 63.
    pub fn at(&self, b: u8) -> Result<u8, CarrierRefusal>
        ensures answer { MatchResult result (λ n. (b < 64) × (n ≡ limit_in (slice_index_or self.now.limits b None))) (AskRefused b) }
    {
        let b = BoxNumber::try_from(b)?;
        Ok(self.limits[b.index()].unwrap_or(0))
    }

    /// The limit of an open box. Refused by 30 for a box above 63, by 31 for a closed one.
    pub fn of_open(&self, b: u8) -> Result<u8, CarrierRefusal>
        ensures answer { MatchResult result
            (λ n. (b < 64) × (slice_index_or self.now.limits b None ≡ Some n))
            (ClosedRefused b (slice_index_or self.now.limits b None)) }
    {
        let b = BoxNumber::try_from(b)?;
        self.limits[b.index()].ok_or(CarrierRefusal::OpenOrClosed)
    }

    /// What is left of the pool.
    pub fn spare(&self) -> u16
        ensures answer { result ≡ self.now.spare }
    {
        self.spare
    }
}
