// What a box holds.
ghost use Rattle.std.specs.Prelude.{Decides};
ghost use Rattle.carriers.specs.Boxes.{Ranged};

/// A message: its number, 0 to 15, and the slot of its payload, 0 to 63, if it has one.
#[derive(Clone, Copy, Debug, PartialEq, Eq)]
pub struct Message {
    pub number: u8,
    pub payload: Option<u8>,
}

impl Message {
    /// Whether number and payload are in their ranges.
    pub fn is_ranged(self) -> bool
        ensures answer { Decides result (Ranged self) }
    {
        match self.payload {
            Some(slot) => self.number < 16 && slot < 64,
            None => self.number < 16,
        }
    }
}
