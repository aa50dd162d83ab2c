// The words that every grammar asks for: each method fetches a word, and refuses one that is not allowed there.
ghost use Rattle.std.specs.Prelude.{◌≡◌, ◌≤◌, map, length};
ghost use Rattle.words.specs.Signs.{said, name_of, mark_size};
ghost use Rattle.grammar.specs.Rows.{row_items};
ghost use Rattle.grammar.specs.Table.{refused, in_name};
ghost use Rattle.grammar.specs.Feeds.{in_keyword, in_keyword_or_end, in_keyword_or_mark, in_mark, in_name_or, source_in, Fetches, admitted, admitted_to};

use crate::family::{Named, has_name};
use crate::fault::GrammarFault;
use crate::feed::Feed;
use crate::row::Row;
use words::fault::Span;
use words::name::{Ident, Name};
use words::word::{Keyword, Mark, Word};

// The name with these bytes at a place.
fn ident(place: usize, bytes: &[u8]) -> Ident
    requires { length bytes.now ≤ 16 }
    ensures { result ≡ record { place = place; name = name_of bytes.now } }
{
    Ident {
        place,
        name: Name::copied(bytes),
    }
}

impl<'a> Feed<'a> {
    /// The fault that a word is not allowed where it stands (4).
    pub fn unexpected(&self, word: Word<'_>) -> GrammarFault
        ensures { result ≡ refused (source_in self.now) (said word.entry) }
    {
        let (Word::Keyword { place, .. }
        | Word::Mark { place, .. }
        | Word::Name { place, .. }
        | Word::Number { place, .. }
        | Word::End { place }) = word;
        GrammarFault::Unexpected(Span {
            source: self.source(),
            place,
            len: word.len(),
        })
    }

    /// The name that stands next; 4 where another word does.
    pub fn name(&mut self) -> Result<Ident, GrammarFault>
        ensures { Fetches 1 in_name self.old result self.new }
    {
        let word = self.next()?;
        match word {
            Word::Name { place, bytes } => Ok(ident(place, bytes)),
            _ => Err(self.unexpected(word)),
        }
    }

    /// The name that stands next, or none where the mark does; 4 where another word does.
    pub fn name_or(&mut self, mark: Mark) -> Result<Option<Ident>, GrammarFault>
        ensures { Fetches 1 (in_name_or mark) self.old result self.new }
    {
        let word = self.next()?;
        match word {
            Word::Name { place, bytes } => Ok(Some(ident(place, bytes))),
            Word::Mark { mark: found, .. } if found == mark => Ok(None),
            _ => Err(self.unexpected(word)),
        }
    }

    /// Passes the mark that stands next; 4 where another word does.
    pub fn mark(&mut self, mark: Mark) -> Result<(), GrammarFault>
        ensures { Fetches (mark_size mark) (in_mark mark) self.old result self.new }
    {
        let word = self.next()?;
        match word {
            Word::Mark { mark: found, .. } if found == mark => Ok(()),
            _ => Err(self.unexpected(word)),
        }
    }

    /// Passes the reserved word that stands next; 4 where another word does.
    pub fn keyword(&mut self, keyword: Keyword) -> Result<(), GrammarFault>
        ensures { Fetches 1 (in_keyword keyword) self.old result self.new }
    {
        let word = self.next()?;
        match word {
            Word::Keyword { keyword: found, .. } if found == keyword => Ok(()),
            _ => Err(self.unexpected(word)),
        }
    }

    /// Whether the reserved word stands next, and not the text's end; 4 where another word does.
    pub fn keyword_or_end(&mut self, keyword: Keyword) -> Result<bool, GrammarFault>
        ensures { Fetches 0 (in_keyword_or_end keyword) self.old result self.new }
    {
        let word = self.next()?;
        match word {
            Word::Keyword { keyword: found, .. } if found == keyword => Ok(true),
            Word::End { .. } => Ok(false),
            _ => Err(self.unexpected(word)),
        }
    }

    /// Whether the reserved word stands next, and not the mark; 4 where another word does.
    pub fn keyword_or_mark(&mut self, keyword: Keyword, mark: Mark) -> Result<bool, GrammarFault>
        ensures { Fetches 1 (in_keyword_or_mark keyword mark) self.old result self.new }
    {
        let word = self.next()?;
        match word {
            Word::Keyword { keyword: found, .. } if found == keyword => Ok(true),
            Word::Mark { mark: found, .. } if found == mark => Ok(false),
            _ => Err(self.unexpected(word)),
        }
    }

    /// Whether a name may join its family: 6 where there is no room, 7 where it stands before.
    pub fn admit(&self, ident: Ident, full: bool, seen: bool) -> Result<(), GrammarFault>
        ensures { result ≡ admitted (source_in self.now) ident full seen }
    {
        let span = ident.span(self.source());
        if full {
            return Err(GrammarFault::TooMany(span));
        }
        if seen {
            return Err(GrammarFault::Repeated(span));
        }
        Ok(())
    }

    /// Whether a name may join the family in a row: 6 where the row is full, 7 where the name stands in it.
    pub fn admit_to<T: Named + Copy, const N: usize>(
        &self,
        ident: Ident,
        family: &Row<T, N>,
    ) -> Result<(), GrammarFault>
        ensures { result ≡ admitted_to (source_in self.now) ident N (map T.named (row_items family.now)) }
    {
        let names = family.as_slice();
        self.admit(ident, names.len() >= N, has_name(names, ident))
    }
}
