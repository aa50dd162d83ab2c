// Which bytes are reserved words.
ghost use Rattle.std.specs.Prelude.{◌≡◌};
ghost use Rattle.std.specs.Str.{bytes_eq};
ghost use Rattle.words.specs.Signs.{spelling as spelled};
ghost use Rattle.words.specs.Stream.{reserved as reserved_as};

use crate::word::Keyword;

const KEYWORDS: [Keyword; 20] = [
    Keyword::Contract,
    Keyword::Out,
    Keyword::In,
    Keyword::Block,
    Keyword::Exp,
    Keyword::Imp,
    Keyword::State,
    Keyword::Process,
    Keyword::New,
    Keyword::Put,
    Keyword::Free,
    Keyword::Open,
    Keyword::Close,
    Keyword::Send,
    Keyword::Pass,
    Keyword::Receive,
    Keyword::Case,
    Keyword::Lost,
    Keyword::Jump,
    Keyword::End,
];

/// The bytes of a reserved word.
pub(crate) fn spelling(keyword: Keyword) -> &'static [u8]
    ensures { result.now ≡ spelled keyword }
{
    match keyword {
        Keyword::Contract => b"contract",
        Keyword::Out => b"out",
        Keyword::In => b"in",
        Keyword::Block => b"block",
        Keyword::Exp => b"exp",
        Keyword::Imp => b"imp",
        Keyword::State => b"state",
        Keyword::Process => b"process",
        Keyword::New => b"new",
        Keyword::Put => b"put",
        Keyword::Free => b"free",
        Keyword::Open => b"open",
        Keyword::Close => b"close",
        Keyword::Send => b"send",
        Keyword::Pass => b"pass",
        Keyword::Receive => b"receive",
        Keyword::Case => b"case",
        Keyword::Lost => b"lost",
        Keyword::Jump => b"jump",
        Keyword::End => b"end",
    }
}

/// Whether a reserved word has these bytes.
// A function of its own: with the comparison within its closure the search takes half again as long.
fn is_spelled(bytes: &[u8], keyword: Keyword) -> bool
    ensures { result ≡ bytes_eq bytes.now (spelled keyword) }
{
    bytes == spelling(keyword)
}

/// The reserved word with these bytes, if one has them.
pub(crate) fn reserved(bytes: &[u8]) -> Option<Keyword>
    ensures { result ≡ reserved_as bytes.now }
{
    KEYWORDS
        .iter()
        .copied()
        .find(|keyword| is_spelled(bytes, *keyword))
}
