// The word that begins at a byte, or how many bytes there begin none.
ghost use Rattle.std.specs.Prelude.{◌≡◌, ◌+◌, ◌<◌, ◌≤◌, length, drop};
ghost use Rattle.words.specs.Reading.{word_or, placed};
ghost use Rattle.std.specs.List.{prefix_len};
ghost use Rattle.words.specs.Runs.{digit, in_name};
ghost use Rattle.words.specs.Stream.{name_lexeme, number_lexeme, minus_lexeme, mark_lexeme, lexeme};

use crate::byte::{digits, is_digit, is_letter, name_bytes};
use crate::keyword::reserved;
use crate::word::{Mark, Word};

/// The most bytes that a name may have.
const LONGEST_NAME: usize = 16;

/// The most digits that a number may have.
const MOST_DIGITS: usize = 3;

/// The reserved word or the name at the front of `bytes`, or its length if it has more than 16 bytes.
fn name<'a>(bytes: &'a [u8], place: usize) -> Result<Word<'a>, usize>
    ensures { word_or result ≡ placed place (name_lexeme bytes.now (prefix_len in_name bytes.now) place) }
{
    let len = name_bytes(bytes);
    if len > LONGEST_NAME {
        return Err(len);
    }
    let bytes = &bytes[..len];
    match reserved(bytes) {
        Some(keyword) => Ok(Word::Keyword { place, keyword }),
        None => Ok(Word::Name { place, bytes }),
    }
}

/// The number whose digits begin after `minus` bytes, or its length if it has more than 3 digits.
fn number<'a>(bytes: &'a [u8], minus: usize, place: usize) -> Result<Word<'a>, usize>
    requires { minus ≤ length bytes.now }
    ensures { word_or result ≡ placed place (number_lexeme bytes.now minus (prefix_len digit (drop minus bytes.now)) place) }
{
    let digits = digits(&bytes[minus..]);
    let len = minus + digits;
    if digits > MOST_DIGITS {
        return Err(len);
    }
    Ok(Word::Number {
        place,
        bytes: &bytes[..len],
    })
}

/// What begins at a minus: an arrow, a number, or no word.
fn minus<'a>(bytes: &'a [u8], place: usize) -> Result<Word<'a>, usize>
    ensures { word_or result ≡ placed place (minus_lexeme bytes.now place) }
{
    match bytes {
        [_, b'>', ..] => Ok(Word::Mark {
            place,
            mark: Mark::Arrow,
        }),
        [_, second, ..] if is_digit(*second) => number(bytes, 1, place),
        _ => Err(1),
    }
}

/// The mark that is one byte, or that the byte begins no word.
fn mark<'a>(b: u8, place: usize) -> Result<Word<'a>, usize>
    ensures { word_or result ≡ placed place (mark_lexeme b) }
{
    let mark = match b {
        b'{' => Mark::OpenBrace,
        b'}' => Mark::CloseBrace,
        b';' => Mark::Semicolon,
        b'!' => Mark::Bang,
        b'?' => Mark::Question,
        _ => return Err(1),
    };
    Ok(Word::Mark { place, mark })
}

/// What begins at the front of `bytes`: a word, or how many bytes are at fault.
pub(crate) fn word_at<'a>(bytes: &'a [u8], place: usize) -> Result<Word<'a>, usize>
    requires { 0 < length bytes.now }
    ensures { word_or result ≡ placed place (lexeme bytes.now place) }
{
    let first = bytes[0];
    if is_letter(first) {
        return name(bytes, place);
    }
    if is_digit(first) {
        return number(bytes, 0, place);
    }
    if first == b'-' {
        return minus(bytes, place);
    }
    mark(first, place)
}
