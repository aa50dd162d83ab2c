// The words that the grammar of script files asks for: each function fetches a word, and refuses one that is not allowed there.
ghost use Rattle.std.specs.Prelude.{◌≡◌, ◌+◌, ◌≤◌, true, false, pos, negsuc, ◌≤ℤ◌, is_some, IfOk, OnOk};
ghost use Rattle.words.specs.Stream.{bytes_in};
ghost use Rattle.grammar.specs.Feeds.{left, Moved};
ghost use Rattle.script_syntax.specs.Grammar.{distance_of};
ghost use Rattle.script_syntax.specs.Numbers.{natural_of, value_of};
ghost use Rattle.script_syntax.specs.Picks.{Counts, looked, statement_in};

use crate::number::value;
use crate::opcode::Opcode;
use crate::tree::Distance;
use grammar::fault::GrammarFault;
use grammar::feed::Feed;
use words::fault::Span;
use words::word::{Keyword, Mark, Word};

// A number from `low` to `high`, with its place.
fn number_in(feed: &mut Feed<'_>, low: i16, high: i16) -> Result<Distance, GrammarFault>
    ensures number { Counts distance_of low high feed.old result feed.new }
    ensures range { IfOk result (λ n. (low ≤ℤ n.value) × (n.value ≤ℤ high)) }
{
    let word = feed.next()?;
    match word {
        Word::Number { place, bytes } => {
            let value = value(bytes);
            let len = bytes.len();
            if (low..=high).contains(&value) {
                Ok(Distance { place, len, value })
            } else {
                Err(GrammarFault::OutOfRange(Span {
                    source: feed.source(),
                    place,
                    len,
                }))
            }
        }
        _ => Err(feed.unexpected(word)),
    }
}

// A number from 0 to `most`.
pub(crate) fn small(feed: &mut Feed<'_>, most: u8) -> Result<u8, GrammarFault>
    ensures { Counts (λ n. natural_of (value_of n.bytes)) (pos 0) (pos most) feed.old result feed.new }
{
    let number = number_in(feed, 0, i16::from(most))?;
    Ok(number.value as u8)
}

// A distance, from −127 to 127.
pub(crate) fn distance(feed: &mut Feed<'_>) -> Result<Distance, GrammarFault>
    ensures { Counts distance_of (negsuc 126) (pos 127) feed.old result feed.new }
{
    number_in(feed, -127, 127)
}

// The instruction word that stands next, where the process is not full; none where the process ends.
pub(crate) fn statement_or_end(
    feed: &mut Feed<'_>,
    full: bool,
) -> Result<Option<Opcode>, GrammarFault>
    ensures head { result ≡ looked (statement_in full) feed.old }
    ensures rest { Moved feed.old feed.new }
    ensures left { bytes_in (left feed.new) ≤ bytes_in (left feed.old) }
    ensures spent { OnOk result (1 + bytes_in (left feed.new) ≤ bytes_in (left feed.old)) }
    ensures room { IfOk result (λ o. is_some o ≡ true → full ≡ false) }
{
    let word = feed.next()?;
    match word {
        Word::Keyword { place, keyword } => match Opcode::try_from(keyword) {
            Ok(_) if full => Err(GrammarFault::TooMany(Span {
                source: feed.source(),
                place,
                len: word.len(),
            })),
            Ok(opcode) => Ok(Some(opcode)),
            Err(_) => Err(feed.unexpected(word)),
        },
        Word::Mark {
            mark: Mark::CloseBrace,
            ..
        } => Ok(None),
        _ => Err(feed.unexpected(word)),
    }
}
