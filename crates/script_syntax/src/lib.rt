// Script files from words to a tree, whose names and distances keep their places.
#![tactic(auto)]

ghost use Rattle.std.specs.Prelude.{◌≡◌, ◌<◌, ◌≤◌, length, IfOk, Err};
ghost use Rattle.words.specs.declared.fault.Source.TheVariants as sources;
ghost use Rattle.words.specs.Reading.{too_large};
ghost use Rattle.words.specs.Stream.{words_of};
ghost use Rattle.grammar.specs.declared.fault.GrammarFault.TheVariants as faults;
ghost use Rattle.script_syntax.specs.Laws.{Exact, Right, outcome};
ghost use Rattle.script_syntax.specs.Trees.{Distinct, Ranged, parts};

mod fetch;
mod number;
mod opcode;
mod parser;
mod statement;
pub mod tree;

use grammar::fault::GrammarFault;
use grammar::feed::Feed;
use parser::file;
use tree::Tree;
use words::fault::Source;

/// The processes of a text, which has at most 4,096 bytes. A refusal stands at the first spot from the left, and has the
/// lowest number that holds there: 2 where the text is too large, 3 where no word stands, 4 where a word is not allowed,
/// 5 where a number is outside its range, 6 where a process or an instruction is one too many, 7 where the name of a process
/// stands a second time.
pub fn read_scripts(text: &[u8]) -> Result<Tree, GrammarFault>
    ensures large { 4096 < length text.now → result ≡ Err (faults.Word (too_large sources.Scripts)) }
    ensures right { length text.now ≤ 4096 → Right (words_of text.now) (outcome result) }
    ensures exact { length text.now ≤ 4096 → Exact (words_of text.now) (outcome result) }
    ensures ranged { IfOk result (λ tree. Ranged (parts tree)) }
    ensures distinct { IfOk result (λ tree. Distinct (parts tree)) }
{
    let feed = Feed::open(Source::Scripts, text)?;
    file(feed)
}
