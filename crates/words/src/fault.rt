// Where a text is at fault, and the faults of its words.
ghost use Rattle.std.specs.Prelude.{◌≡◌, Some};
ghost use Rattle.words.specs.Faults.{text_number, report_at, report_text, word_report};

use std::fmt;

/// The two texts that a station is set up from.
#[derive(Clone, Copy, PartialEq, Eq)]
pub enum Source {
    Contracts,
    Scripts,
}

/// A part of a text: the offset of its first byte, and how many bytes it has.
#[derive(Clone, Copy, PartialEq, Eq)]
pub struct Span {
    pub source: Source,
    pub place: usize,
    pub len: usize,
}

/// The number that stands for a text: 0 for the contracts, 1 for the scripts.
impl From<Source> for u8 {
    ghost from_gives = { λ s r. r ≡ text_number s };

    fn from(source: Source) -> u8 {
        match source {
            Source::Contracts => 0,
            Source::Scripts => 1,
        }
    }
}

/// A fault as the station shows it: number, layer, text, place and length.
// By numbers, since these are what a station shows; what they stand for are enums.
#[derive(Clone, Copy, PartialEq, Eq)]
pub struct Report {
    pub number: u8,
    pub layer: u8,
    pub text: u8,
    pub place: usize,
    pub len: usize,
}

/// The fault on one line, as programs read it.
impl fmt::Display for Report {
    ghost output = { λ r. Some (report_text r) };

    fn fmt<W: fmt::Write>(&self, f: &mut fmt::Formatter<W>) -> fmt::Result {
        write!(
            f,
            "fault {} layer {} text {} place {} length {}",
            self.number, self.layer, self.text, self.place, self.len
        )
    }
}

impl Span {
    /// A fault of a number and a layer at this part of a text.
    pub fn report(self, number: u8, layer: u8) -> Report
        ensures { result ≡ report_at number layer self }
    {
        Report {
            number,
            layer,
            text: self.source.into(),
            place: self.place,
            len: self.len,
        }
    }
}

/// A text that cannot be cut into words.
#[derive(Clone, Copy, PartialEq, Eq)]
pub enum WordFault {
    /// 2: the text has more than 4,096 bytes.
    TooLarge(Span),
    /// 3: a byte begins no word, or a name or number is too long.
    NoWord(Span),
}

/// What the station shows of a word fault: 2 or 3, in layer 1.
impl From<WordFault> for Report {
    ghost from_gives = { λ f r. r ≡ word_report f };

    fn from(fault: WordFault) -> Report {
        match fault {
            WordFault::TooLarge(span) => span.report(2, 1),
            WordFault::NoWord(span) => span.report(3, 1),
        }
    }
}
