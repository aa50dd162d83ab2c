// Limits drawn from the pool, and given back to it.
ghost use Rattle.std.specs.Prelude.{◌≡◌, None, MatchResult, slice_index_or};
ghost use Rattle.carriers.specs.Limits.{Drawn, Returned, DrawRefused, ClosedRefused};

use crate::box_number::BoxNumber;
use crate::limits::Limits;
use crate::refusal::CarrierRefusal;

impl Limits {
    /// Draws a limit for a closed box, which is then open. Refused by 30 for a box above 63 or a limit above 15, by 31
    /// where the box is open, by 33 where too little is spare.
    pub fn draw(&mut self, b: u8, limit: u8) -> Result<(), CarrierRefusal>
        ensures done { MatchResult result
            (λ _. Drawn self.old.limits self.old.spare b limit self.new.limits self.new.spare)
            (λ e. DrawRefused self.old.limits self.old.spare b limit e × (self.new.limits ≡ self.old.limits) × (self.new.spare ≡ self.old.spare)) }
    {
        let b = BoxNumber::try_from(b)?;
        if limit > 15 {
            return Err(CarrierRefusal::OutOfRange);
        }
        let drawn = self.limits[b.index()];
        if drawn.is_some() {
            return Err(CarrierRefusal::OpenOrClosed);
        }
        if limit as u16 > self.spare {
            return Err(CarrierRefusal::NoSpare);
        }
        self.limits[b.index()] = Some(limit);
        self.spare -= limit as u16;
        Ok(())
    }

    /// Gives the limit of an open box back, which is then closed. Refused by 30 for a box above 63, by 31 for a closed one.
    pub fn give_back(&mut self, b: u8) -> Result<(), CarrierRefusal>
        ensures done { MatchResult result
            (λ _. Returned self.old.limits self.old.spare b self.new.limits self.new.spare)
            (λ e. ClosedRefused b (slice_index_or self.old.limits b None) e × (self.new.limits ≡ self.old.limits) × (self.new.spare ≡ self.old.spare)) }
    {
        let limit = self.of_open(b)?;
        self.limits[b as usize] = None;
        self.spare += limit as u16;
        Ok(())
    }
}
