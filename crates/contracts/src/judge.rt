// From the tree of a contract file to an accepted set, or the fault that is first by the rules.
ghost use Rattle.std.specs.Prelude.{◌≡◌, ◌<◌, length};
ghost use Rattle.syntax.specs.Trees.{parts, Ranged};
ghost use Rattle.contracts.specs.Judgement.{fault_from, Inhabited, Judged, message_name, move_name, span_of, state_name, Within};
ghost use Rattle.contracts.specs.Names.{head_at};

use crate::broken::Broken;
use crate::by_numbers::ByNumbers;
use crate::fault::RuleFault;
use crate::resolve::resolve;
use crate::set::ContractSet;
use crate::set::accept::accept;
use syntax::tree::Tree;
use words::fault::{Source, Span};

// Where the name of a move's message stands.
fn move_span(tree: &Tree, i: usize) -> Span
    requires { i < length (parts tree.now).moves }
    ensures { result ≡ span_of (move_name (parts tree.now) i) }
{
    tree.moves()[i].step.message.span(Source::Contracts)
}

// Where the name of a state stands.
fn state_span(tree: &Tree, contract: usize, s: usize) -> Span
    requires contract { contract < length (parts tree.now).heads }
    requires state { s < length (head_at (parts tree.now).heads contract).states }
    ensures { result ≡ span_of (state_name (parts tree.now) contract s) }
{
    tree.heads()[contract].states.as_slice()[s].span(Source::Contracts)
}

// Where the name of a message stands.
fn message_span(tree: &Tree, contract: usize, m: usize) -> Span
    requires contract { contract < length (parts tree.now).heads }
    requires message { m < length (head_at (parts tree.now).heads contract).messages }
    ensures { result ≡ span_of (message_name (parts tree.now) contract m) }
{
    tree.heads()[contract].messages.as_slice()[m]
        .ident
        .span(Source::Contracts)
}

// The fault that a broken rule is shown as.
fn fault_of(tree: &Tree, broken: Broken) -> RuleFault
    requires { Within (parts tree.now) broken }
    ensures { result ≡ fault_from (parts tree.now) broken }
{
    match broken {
        Broken::WrongMark(i) => RuleFault::WrongMark(move_span(tree, i)),
        Broken::SecondMove(i) => RuleFault::SecondMove(move_span(tree, i)),
        Broken::MixedMarks(i) => RuleFault::MixedMarks(move_span(tree, i)),
        Broken::Unreachable(k, s) => RuleFault::Unreachable(state_span(tree, k, s)),
        Broken::OneWayCycle(k, s) => RuleFault::OneWayCycle(state_span(tree, k, s)),
        Broken::SilentEnd(k, m) => RuleFault::SilentEnd(message_span(tree, k, m)),
    }
}

/// The set of a file, or the fault that is first by the rules: 8, then 9 to 14, each in the order of the text.
pub(crate) fn judge(tree: &Tree) -> Result<ContractSet, RuleFault>
    requires ranged { Ranged (parts tree.now) }
    requires inhabited { Inhabited (parts tree.now) }
    ensures { Judged (parts tree.now) result }
{
    let numbered = resolve(tree).map_err(|ident| RuleFault::Undeclared(ident.span(
        Source::Contracts,
    )))?;
    let file = ByNumbers {
        declarations: numbered.declarations.as_slice(),
        moves: numbered.moves.as_slice(),
    };
    accept(&file).map_err(|broken| fault_of(tree, broken))
}
