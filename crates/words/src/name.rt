// Names as values: their bytes, and where they stand in a text.
ghost use Rattle.std.specs.Prelude.{◌≡◌, take, Decides};
ghost use Rattle.words.specs.Signs.{name_of};

use crate::fault::{Source, Span};

/// The bytes of a name, at most 16, with zeros behind them.
// Fixed bytes and their number: a name outlives its text, and to keep one takes no memory that could run out.
#[derive(Clone, Copy, PartialEq, Eq)]
pub struct Name {
    pub len: usize,
    pub bytes: [u8; 16],
}

impl Name {
    /// The name with these bytes. Of more than 16 bytes it has the first 16.
    pub fn copied(bytes: &[u8]) -> Name
        ensures { result ≡ name_of (take 16 bytes.now) }
    {
        let len = bytes.len().min(16);
        let mut all = [0; 16];
        all[..len].copy_from_slice(&bytes[..len]);
        Name { len, bytes: all }
    }

    /// Whether two names are the same.
    pub fn same(self, other: Name) -> bool
        ensures { Decides result (self ≡ other) }
    {
        self == other
    }

    /// The bytes of the name, without the zeros behind them.
    pub fn as_bytes(&self) -> &[u8]
        ensures { result.now ≡ take self.now.len self.now.bytes }
    {
        let len = self.len.min(16);
        &self.bytes[..len]
    }
}

/// A name that stands in a text: the offset of its first byte, and the name.
#[derive(Clone, Copy)]
pub struct Ident {
    pub place: usize,
    pub name: Name,
}

impl Ident {
    /// The part of a text that the name is.
    pub fn span(self, source: Source) -> Span
        ensures { result ≡ record { source = source; place = self.place; len = self.name.len } }
    {
        Span {
            source,
            place: self.place,
            len: self.name.len,
        }
    }
}
