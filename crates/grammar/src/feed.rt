// A text that a grammar asks for one word after the other.
ghost use Rattle.std.specs.Prelude.{◌≡◌, ◌+◌, ◌<◌, ◌≤◌, length, IfOk, MatchResult};
ghost use Rattle.words.specs.Reading.{rest, source_of, said_ok, Short, too_large};
ghost use Rattle.words.specs.Signs.{said, size_of};
ghost use Rattle.words.specs.Stream.{head_of, tail_of, bytes_in, words_of};
ghost use Rattle.grammar.specs.Sizes.{Sized};

use words::fault::{Source, WordFault};
use words::reader::Reader;
use words::word::Word;

/// The words of a text that are left.
#[derive(Drop)]
pub struct Feed<'a> {
    reader: Reader<'a>,
}

impl<'a> Feed<'a> {
    /// A text of at most 4,096 bytes from its beginning on; a larger one is refused by 2.
    pub fn open(source: Source, text: &'a [u8]) -> Result<Feed<'a>, WordFault>
        ensures answer { MatchResult result
            (λ feed. (length text.now ≤ 4096) × (rest feed.reader ≡ words_of text.now) × (source_of feed.reader ≡ source))
            (λ fault. (4096 < length text.now) × (fault ≡ too_large source)) }
        ensures within { IfOk result (λ feed. bytes_in (rest feed.reader) ≤ 4096) }
    {
        Ok(Feed {
            reader: Reader::new(source, text)?,
        })
    }

    /// Which text is read.
    pub fn source(&self) -> Source
        ensures { result ≡ source_of self.now.reader }
    {
        self.reader.source()
    }

    /// Fetches the next word, or the end; 3 where no word stands.
    pub fn next(&mut self) -> Result<Word<'a>, WordFault>
        ensures head { said_ok result ≡ head_of (source_of self.old.reader) (rest self.old.reader) }
        ensures tail { rest self.new.reader ≡ tail_of (rest self.old.reader) }
        ensures source { source_of self.new.reader ≡ source_of self.old.reader }
        ensures short { Short result }
        ensures left { bytes_in (rest self.new.reader) ≤ bytes_in (rest self.old.reader) }
        ensures spent { IfOk result (λ w. size_of (said w).sign + bytes_in (rest self.new.reader) ≤ bytes_in (rest self.old.reader)) }
        ensures named { IfOk result (λ w. Sized (said w).sign) }
    {
        self.reader.next()
    }
}
