// The words of a text: reserved words, marks, names, numbers, and the end.
ghost use Rattle.std.specs.Prelude.{◌≡◌};
ghost use Rattle.words.specs.Signs.{said, size_of};

use crate::keyword::spelling;

/// The words that are never names.
#[derive(Clone, Copy, PartialEq, Eq)]
pub enum Keyword {
    Contract,
    Out,
    In,
    Block,
    Exp,
    Imp,
    State,
    Process,
    New,
    Put,
    Free,
    Open,
    Close,
    Send,
    Pass,
    Receive,
    Case,
    Lost,
    Jump,
    End,
}

/// The marks `{`, `}`, `;`, `!`, `?` and `->`.
#[derive(Clone, Copy, PartialEq, Eq)]
pub enum Mark {
    OpenBrace,
    CloseBrace,
    Semicolon,
    Bang,
    Question,
    Arrow,
}

/// A word with the offset of its first byte. Names and numbers are the text's own bytes.
#[derive(Clone, Copy)]
pub enum Word<'a> {
    Keyword { place: usize, keyword: Keyword },
    Mark { place: usize, mark: Mark },
    Name { place: usize, bytes: &'a [u8] },
    Number { place: usize, bytes: &'a [u8] },
    End { place: usize },
}

impl<'a> Word<'a> {
    /// How many bytes a word has.
    pub fn len(self) -> usize
        ensures { result ≡ size_of (said self.entry).sign }
    {
        match self {
            Word::Keyword { keyword, .. } => spelling(keyword).len(),
            Word::Mark { mark, .. } => match mark {
                Mark::Arrow => 2,
                _ => 1,
            },
            Word::Name { bytes, .. } => bytes.len(),
            Word::Number { bytes, .. } => bytes.len(),
            Word::End { .. } => 0,
        }
    }
}
