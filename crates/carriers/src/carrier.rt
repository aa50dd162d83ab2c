// What a carrier of messages is.
ghost use Rattle.std.specs.Prelude.{◌≡◌, ℕ, ◌-◌, ◌≤◌, List};
ghost use Rattle.carriers.specs.Boxes.{Box, all_limits, Kept};
ghost use Rattle.carriers.specs.Calls.{Opens, Puts, Takes, Closes, Counts, Slacks};

use crate::message::Message;
use crate::refusal::CarrierRefusal;

/// 64 boxes of messages, each closed, or open with a limit and a list. All limits together are drawn from one pool.
///
/// What a carrier does is said of its boxes alone, so code above is right over every carrier. A refused call leaves all
/// boxes as they were, and an accepted one every box but the one that it names.
pub trait Carrier {
    /// How much the limits of all open boxes may come to: 32 to 960.
    const POOL: u16;

    // POOL in clauses and laws.
    ghost POOL: { ℕ };

    // What the carrier holds: its 64 boxes.
    ghost boxes: { Self → List Box };

    /// Opens a closed box with a limit and no message. Refused by 30 for a box above 63 or a limit above 15, by 31 where
    /// the box is open, by 33 where the limit exceeds what is spare.
    fn open(&mut self, b: u8, limit: u8) -> Result<(), CarrierRefusal>
        ensures done { Opens POOL (boxes self.old) b limit result (boxes self.new) };

    /// Appends a message to the list of a box. Refused by 30 for a box above 63, a message number above 15 or a payload
    /// above 63, by 31 where the box is closed, by 32 where it is full.
    fn put(&mut self, b: u8, message: Message) -> Result<(), CarrierRefusal>
        ensures done { Puts (boxes self.old) b message result (boxes self.new) };

    /// Removes and answers the first message of a box. Refused by 30 for a box above 63, by 31 where the box is closed,
    /// by 32 where it is empty.
    fn take(&mut self, b: u8) -> Result<Message, CarrierRefusal>
        ensures done { Takes (boxes self.old) b result (boxes self.new) };

    /// How many messages wait in a box; 0 in a closed one. Refused by 30 for a box above 63.
    fn count(&self, b: u8) -> Result<u8, CarrierRefusal>
        ensures answer { Counts (boxes self.now) b result };

    /// How many messages a box has room for; 0 in a closed one. Refused by 30 for a box above 63.
    fn slack(&self, b: u8) -> Result<u8, CarrierRefusal>
        ensures answer { Slacks (boxes self.now) b result };

    /// POOL less the limits of all open boxes.
    fn spare(&self) -> u16
        ensures answer { result ≡ POOL - all_limits (boxes self.now) };

    /// Closes an open box, whose limit and messages are gone. Refused by 30 for a box above 63, by 31 where it is closed.
    fn close(&mut self, b: u8) -> Result<(), CarrierRefusal>
        ensures done { Closes (boxes self.old) b result (boxes self.new) };

    ghost bounds: { (32 ≤ POOL) × (POOL ≤ 960) };

    ghost kept: { (c : Self) → Kept POOL (boxes c) };
}
