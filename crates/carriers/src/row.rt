// Messages as bytes, in a row that goes round.
ghost use Rattle.std.specs.Prelude.{◌≡◌, ◌+◌, ◌-◌, ◌*◌, ◌<◌, ◌≤◌, [], ◌∷◌, ◌++◌, length};
ghost use Rattle.carriers.specs.Boxes.{Ranged};
ghost use Rattle.carriers.specs.Rows.{byte_of, payload_of, place_of, message_at, queued, Legible};

use crate::message::Message;

/// How many messages fit a row.
const PLACES: u8 = 15;

/// The payload byte of a message that has none.
// A byte and no Option: the station stores a message in two bytes, with 255 for no payload.
const NONE: u8 = 255;

/// A row of 30 bytes for at most 15 messages. They begin at any of its 15 places; behind the last place they go on at the
/// front, so that taking the first moves no byte.
#[derive(Clone, Copy)]
pub(crate) struct Row {
    /// How many messages it has.
    count: u8,
    /// The place of the first.
    first: u8,
    /// Two bytes for each place: a message's number, and its payload's slot, 255 for none.
    bytes: [u8; 30],
    ghost size: { length bytes ≡ 30 },
    ghost few: { count ≤ 15 },
    ghost within: { first < 15 },
    ghost legible: { Legible bytes },
}

/// The place of the k-th message of a row that begins at place `first`.
fn place(first: u8, k: u8) -> u8
    requires { (first < 15) × (k < 15) }
    ensures { result ≡ place_of first k }
{
    if first + k < PLACES {
        first + k
    } else {
        first + k - PLACES
    }
}

/// A payload as a byte.
fn encode(payload: Option<u8>) -> u8
    ensures { result ≡ byte_of payload }
{
    match payload {
        Some(slot) => slot,
        None => NONE,
    }
}

/// The payload that a byte stands for.
fn decode(byte: u8) -> Option<u8>
    ensures { result ≡ payload_of byte }
{
    if byte == NONE { None } else { Some(byte) }
}

impl Row {
    /// A row without messages.
    pub(crate) fn new() -> Row
        ensures none { queued result.count result.first result.bytes ≡ [] }
    {
        Row {
            count: 0,
            first: 0,
            bytes: [0; 30],
        }
    }

    /// How many messages the row has.
    pub(crate) fn count(&self) -> u8
        ensures answer { result ≡ length (queued self.now.count self.now.first self.now.bytes) }
    {
        self.count
    }

    /// Appends a message to a row that has fewer than 15.
    pub(crate) fn push(&mut self, message: Message)
        requires room { length (queued self.old.count self.old.first self.old.bytes) < 15 }
        requires ranged { Ranged message }
        ensures here { queued self.new.count self.new.first self.new.bytes
            ≡ queued self.old.count self.old.first self.old.bytes ++ message ∷ [] }
    {
        let at = 2 * place(self.first, self.count) as usize;
        let slot = encode(message.payload);
        self.bytes[at] = message.number;
        self.bytes[at + 1] = slot;
        self.count += 1;
    }

    /// Removes and answers the first message of a row that has one.
    pub(crate) fn pop(&mut self) -> Message
        requires some { 0 < length (queued self.old.count self.old.first self.old.bytes) }
        ensures here { queued self.old.count self.old.first self.old.bytes
            ≡ result ∷ queued self.new.count self.new.first self.new.bytes }
    {
        let at = 2 * self.first as usize;
        let number = self.bytes[at];
        let payload = decode(self.bytes[at + 1]);
        let next = place(self.first, 1);
        self.first = next;
        self.count -= 1;
        Message { number, payload }
    }

    /// Removes all messages.
    pub(crate) fn clear(&mut self)
        ensures none { queued self.new.count self.new.first self.new.bytes ≡ [] }
    {
        self.count = 0;
    }
}
