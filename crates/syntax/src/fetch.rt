// The words that the grammar of contract files alone asks for: each function fetches a word, and refuses one that is not allowed there.
ghost use Rattle.grammar.specs.Feeds.{Fetches};
ghost use Rattle.syntax.specs.Picks.{in_message, in_cargo, in_way};

use crate::cargo::Cargo;
use crate::tree::{Mark, Role};
use grammar::fault::GrammarFault;
use grammar::feed::Feed;
use words::word::{Keyword, Mark as MarkWord, Word};

// `out` or `in`, which begin one more message, or the first `state`.
pub(crate) fn message_or_state(feed: &mut Feed<'_>) -> Result<Option<Mark>, GrammarFault>
    ensures { Fetches 1 in_message feed.old result feed.new }
{
    let word = feed.next()?;
    match word {
        Word::Keyword {
            keyword: Keyword::Out,
            ..
        } => Ok(Some(Mark::Out)),
        Word::Keyword {
            keyword: Keyword::In,
            ..
        } => Ok(Some(Mark::In)),
        Word::Keyword {
            keyword: Keyword::State,
            ..
        } => Ok(None),
        _ => Err(feed.unexpected(word)),
    }
}

// What a message carries, by the word behind its name.
pub(crate) fn cargo(feed: &mut Feed<'_>) -> Result<Cargo, GrammarFault>
    ensures { Fetches 1 in_cargo feed.old result feed.new }
{
    let word = feed.next()?;
    match word {
        Word::Keyword {
            keyword: Keyword::Block,
            ..
        } => Ok(Cargo::Block),
        Word::Keyword {
            keyword: Keyword::Exp,
            ..
        } => Ok(Cargo::End(Role::Exporting)),
        Word::Keyword {
            keyword: Keyword::Imp,
            ..
        } => Ok(Cargo::End(Role::Importing)),
        Word::Mark {
            mark: MarkWord::Semicolon,
            ..
        } => Ok(Cargo::Nothing),
        _ => Err(feed.unexpected(word)),
    }
}

// `!` or `?`.
pub(crate) fn way(feed: &mut Feed<'_>) -> Result<Mark, GrammarFault>
    ensures { Fetches 1 in_way feed.old result feed.new }
{
    let word = feed.next()?;
    match word {
        Word::Mark {
            mark: MarkWord::Bang,
            ..
        } => Ok(Mark::Out),
        Word::Mark {
            mark: MarkWord::Question,
            ..
        } => Ok(Mark::In),
        _ => Err(feed.unexpected(word)),
    }
}
