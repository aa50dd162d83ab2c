// Contract files from words to a tree, whose names keep their places.
#![tactic(auto)]

ghost use Rattle.std.specs.Prelude.{◌≡◌, ◌<◌, ◌≤◌, [], length, IfOk, Err};
ghost use Rattle.words.specs.declared.fault.Source.TheVariants as sources;
ghost use Rattle.words.specs.Reading.{too_large};
ghost use Rattle.words.specs.Stream.{words_of, bytes_in};
ghost use Rattle.grammar.specs.declared.fault.GrammarFault.TheVariants as faults;
ghost use Rattle.syntax.specs.Trees.{parts_of, parts, Ranged};
ghost use Rattle.syntax.specs.Laws.{Right, Exact, outcome};
ghost use Rattle.grammar.specs.Feeds.{left, source_in};
ghost use Rattle.grammar.specs.Table.{run};
ghost use Rattle.syntax.specs.Machine.{ask, start};

mod cargo;
mod fetch;
mod parser;
pub mod tree;

use grammar::fault::GrammarFault;
use grammar::feed::Feed;
use parser::Parser;
use tree::Tree;
use words::fault::Source;

// The file whose words are left. Other grammars have the like; one function over them would be handed a parser, a machine
// and laws, and say less.
fn parsed(feed: Feed<'_>) -> Result<Tree, GrammarFault>
    requires { (source_in feed ≡ sources.Contracts) × (bytes_in (left feed) ≤ 4096) }
    ensures { outcome result ≡ run ask sources.Contracts (start (parts_of [])) (left feed.entry) }
{
    let mut parser = Parser::new(feed);
    parser.contracts()?;
    Ok(parser.into_tree())
}

/// The contracts of a text, which has at most 4,096 bytes. A refusal stands at the first spot from the left, and has the
/// lowest number that holds there: 2 where the text is too large, 3 where no word stands, 4 where a word is not allowed,
/// 6 where a name is one too many of its family, 7 where it stands there a second time.
pub fn read_contracts(text: &[u8]) -> Result<Tree, GrammarFault>
    ensures large { 4096 < length text.now → result ≡ Err (faults.Word (too_large sources.Contracts)) }
    ensures right { length text.now ≤ 4096 → Right (words_of text.now) (outcome result) }
    ensures exact { length text.now ≤ 4096 → Exact (words_of text.now) (outcome result) }
    ensures ranged { IfOk result (λ tree. Ranged (parts tree)) }
{
    let feed = Feed::open(Source::Contracts, text)?;
    parsed(feed)
}
