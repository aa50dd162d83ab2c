// What keeps the messages of a carrier's boxes.
ghost use Rattle.std.specs.Prelude.{◌≡◌, ℕ, ◌<◌, ◌≤◌, List, [], ◌∷◌, ◌++◌, length, MatchOption, MatchResult};
ghost use Rattle.std.specs.List.{AllByRecursion};
ghost use Rattle.carriers.specs.declared.message.Message.{Message};
ghost use Rattle.carriers.specs.Boxes.{Ranged};
ghost use Rattle.carriers.specs.Stores.{Others, Room};

use crate::box_number::BoxNumber;
use crate::limit::Limit;
use crate::message::Message;

/// A list of messages for each of 64 boxes, where all lists together have some greatest length. It knows no limits: which
/// box may have how many messages is for the carrier to say.
pub trait Store: Drop {
    /// How many messages all boxes together can have: 32 to 960.
    const POOL: u16;

    // POOL in clauses and laws.
    ghost POOL: { ℕ };

    // The messages that wait in each box, first to last.
    ghost waiting: { Self → ℕ → List Message };

    /// No messages in any box.
    fn new() -> Self
        ensures none { (b : ℕ) → b < 64 → waiting result b ≡ [] };

    /// How many messages a box has.
    fn count(&self, b: BoxNumber) -> u8
        ensures answer { result ≡ length (waiting self.now b.number) };

    /// Appends a message to a box. Gives it back, with nothing changed, where it is out of its range, the box has as many
    /// messages as the limit says, or all boxes together have POOL.
    fn try_push(&mut self, b: BoxNumber, limit: Limit, message: Message) -> Result<(), Message>
        ensures answer { MatchResult result
            (λ _. Room POOL (waiting self.old) b.number limit.number message)
            (λ m. (m ≡ message) × (Room POOL (waiting self.old) b.number limit.number message → ⊥)) }
        ensures here { MatchResult result
            (λ _. waiting self.new b.number ≡ waiting self.old b.number ++ message ∷ [])
            (λ _. waiting self.new b.number ≡ waiting self.old b.number) }
        ensures others { Others (waiting self.old) b.number (waiting self.new) };

    /// Removes and answers the first message of a box; none, with nothing changed, where it has none.
    fn try_pop(&mut self, b: BoxNumber) -> Option<Message>
        ensures here { MatchOption result
            ((waiting self.old b.number ≡ []) × (waiting self.new b.number ≡ []))
            (λ m. waiting self.old b.number ≡ m ∷ waiting self.new b.number) }
        ensures others { Others (waiting self.old) b.number (waiting self.new) };

    /// Appends a message that is in its range to a box that has fewer than 15, where all boxes together have fewer than POOL.
    /// Else nothing changes, and the message is not kept: where that may be, `try_push` tells.
    fn push(&mut self, b: BoxNumber, message: Message)
        ensures here { Room POOL (waiting self.old) b.number 15 message →
            waiting self.new b.number ≡ waiting self.old b.number ++ message ∷ [] }
        ensures without_room { (Room POOL (waiting self.old) b.number 15 message → ⊥) →
            waiting self.new b.number ≡ waiting self.old b.number }
        ensures others { Others (waiting self.old) b.number (waiting self.new) }
    {
        let _ = self.try_push(b, Limit::new(15), message);
    }

    /// Removes and answers the first message of a box that has one. Of a box that has none nothing changes, and the answer is
    /// a message of number 0 without a payload: where that may be, `try_pop` tells.
    fn pop(&mut self, b: BoxNumber) -> Message
        ensures here { 0 < length (waiting self.old b.number) → waiting self.old b.number ≡ result ∷ waiting self.new b.number }
        ensures empty { waiting self.old b.number ≡ [] →
            (waiting self.new b.number ≡ []) × (result.number ≡ 0) × (result.payload ≡ None) }
        ensures others { Others (waiting self.old) b.number (waiting self.new) }
    {
        self.try_pop(b).unwrap_or(Message {
            number: 0,
            payload: None,
        })
    }

    /// Removes all messages of a box.
    fn clear(&mut self, b: BoxNumber)
        ensures here { waiting self.new b.number ≡ [] }
        ensures others { Others (waiting self.old) b.number (waiting self.new) };

    ghost bounds: { (32 ≤ POOL) × (POOL ≤ 960) };

    ghost ranged: { (s : Self) (b : ℕ) → AllByRecursion Ranged (waiting s b) };
}
