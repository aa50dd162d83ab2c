// Fetches the words of a text one at a time.
ghost use Rattle.std.specs.Prelude.{◌≡◌, ◌+◌, ◌<◌, ◌≤◌, length, drop, IfOk, MatchResult};
ghost use Rattle.words.specs.Reading.{rest, source_of, said_ok, Short, too_large};
ghost use Rattle.std.specs.List.{prefix_len};
ghost use Rattle.words.specs.Runs.{blank};
ghost use Rattle.words.specs.Stream.{words_of, head_of, tail_of, bytes_in, Proper, WellPlaced};

use crate::byte::blanks;
use crate::fault::{Source, Span, WordFault};
use crate::lexeme::word_at;
use crate::word::Word;

/// The most bytes that a text may have.
const LARGEST: usize = 4096;

/// A text, and how far it has been read.
#[derive(Drop)]
pub struct Reader<'a> {
    source: Source,
    text: &'a [u8],
    at: usize,
}

impl<'a> Reader<'a> {
    /// A reader at the beginning of a text. Refuses a text of more than 4,096 bytes by 2, at its byte 4,096.
    pub fn new(source: Source, text: &'a [u8]) -> Result<Reader<'a>, WordFault>
        ensures answer { MatchResult result
            (λ reader. (length text.now ≤ 4096) × (rest reader ≡ words_of text.now) × (source_of reader ≡ source))
            (λ fault. (4096 < length text.now) × (fault ≡ too_large source)) }
        ensures proper { IfOk result (λ reader. Proper (rest reader)) }
        ensures well_placed { IfOk result (λ reader. WellPlaced (rest reader)) }
        ensures within { IfOk result (λ reader. bytes_in (rest reader) ≤ 4096) }
    {
        if text.len() > LARGEST {
            return Err(WordFault::TooLarge(Span {
                source,
                place: LARGEST,
                len: 0,
            }));
        }
        Ok(Reader {
            source,
            text,
            at: 0,
        })
    }

    /// Which text is read.
    pub fn source(&self) -> Source
        ensures { result ≡ source_of self.now }
    {
        self.source
    }

    /// Fetches the next word, or the end, which is there again at the next call. Refuses by 3 where bytes begin no
    /// word, and a name or a number that is too long; the reader then stays.
    pub fn next(&mut self) -> Result<Word<'a>, WordFault>
        ensures head { said_ok result ≡ head_of (source_of self.old) (rest self.old) }
        ensures tail { rest self.new ≡ tail_of (rest self.old) }
        ensures source { source_of self.new ≡ source_of self.old }
        ensures short { Short result }
    {
        let text = self.text;
        let place = past_blanks(text, self.at);
        if place >= text.len() {
            return Ok(Word::End { place });
        }
        match word_at(&text[place..], place) {
            Ok(word) => {
                self.at = place + word.len();
                Ok(word)
            }
            Err(len) => Err(WordFault::NoWord(Span {
                source: self.source,
                place,
                len,
            })),
        }
    }
}

/// The place of the first byte from `at` on that is no blank.
fn past_blanks(text: &[u8], at: usize) -> usize
    ensures { result ≡ at + prefix_len blank (drop at text.now) }
{
    if at >= text.len() {
        return at;
    }
    at + blanks(&text[at..])
}
