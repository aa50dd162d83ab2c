// The number that a name of a payload or a move stands for.
ghost use Rattle.std.specs.Prelude.{◌≡◌, ℕ, ◌<◌, length, MatchResult};
ghost use Rattle.syntax.specs.Trees.{parts};
ghost use Rattle.syntax.specs.declared.tree.Payload.TheVariants.{End};
ghost use Rattle.contracts.specs.Names.{MessageNamed, PayloadMissing, StateNamed};
ghost use Rattle.contracts.specs.Numbers.{PayloadAs};

use crate::declaration::Payload;
use crate::names::{find_contract, find_end, find_message, find_state};
use syntax::tree::{MoveEntry, Payload as PayloadTree, Role, Tree};
use words::name::Ident;

// The end of a contract in a state, or the name of the two that is not declared.
fn end(tree: &Tree, role: Role, contract: Ident, state: Ident) -> Result<Payload, Ident>
    ensures { MatchResult result (PayloadAs (parts tree.now).heads (End role contract state)) (PayloadMissing (parts tree.now).heads (End role contract state)) }
{
    let heads = tree.heads();
    if let Some((k, u)) = find_end(heads, contract.name, state.name) {
        return Ok(Payload::End {
            role,
            contract: k as u8,
            state: u as u8,
        });
    }
    match find_contract(heads, contract.name) {
        Some(_) => Err(state),
        None => Err(contract),
    }
}

// What a message carries, or the name that is not declared.
pub(crate) fn payload(tree: &Tree, written: PayloadTree) -> Result<Payload, Ident>
    ensures { MatchResult result (PayloadAs (parts tree.now).heads written) (PayloadMissing (parts tree.now).heads written) }
{
    match written {
        PayloadTree::Nothing => Ok(Payload::Nothing),
        PayloadTree::Block => Ok(Payload::Block),
        PayloadTree::End {
            role,
            contract,
            state,
        } => end(tree, role, contract, state),
    }
}

// A move's message by its number, or its name where it is not declared.
// That the contract is one of the file's is asked here of one move: the tree says it of all of them.
pub(crate) fn message_of(tree: &Tree, entry: MoveEntry) -> Result<usize, Ident>
    requires { entry.contract < length (parts tree.now).heads }
    ensures { MatchResult result (MessageNamed (parts tree.now).heads entry.contract entry.step.message.name) (λ d. (entry.step.message ≡ d) × ((m : ℕ) → MessageNamed (parts tree.now).heads entry.contract entry.step.message.name m → ⊥)) }
{
    let head = &tree.heads()[entry.contract];
    find_message(head.messages.as_slice(), entry.step.message.name).ok_or(entry.step.message)
}

// A move's target by its number, or its name where it is not declared.
pub(crate) fn target_of(tree: &Tree, entry: MoveEntry) -> Result<u8, Ident>
    requires { entry.contract < length (parts tree.now).heads }
    ensures { MatchResult result (StateNamed (parts tree.now).heads entry.contract entry.step.target.name) (λ d. (entry.step.target ≡ d) × ((s : ℕ) → StateNamed (parts tree.now).heads entry.contract entry.step.target.name s → ⊥)) }
{
    let head = &tree.heads()[entry.contract];
    match find_state(head.states.as_slice(), entry.step.target.name) {
        Some(s) => Ok(s as u8),
        None => Err(entry.step.target),
    }
}
