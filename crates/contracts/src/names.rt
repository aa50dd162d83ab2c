// Finds names among those that a file declares. What stands under a name is a definition of its own in each family, so one
// search over all families would need a lemma for each.
ghost use Rattle.std.specs.Prelude.{ℕ, ◌<◌, map, MatchOption};
ghost use Rattle.syntax.specs.Trees.{declares};
ghost use Rattle.contracts.specs.Names.{ContractNamed, EndNamed, MessageIn, StateIn};

use syntax::tree::{Head, Message};
use words::name::{Ident, Name};

// The number of a contract of this name.
pub(crate) fn find_contract(heads: &[Head], name: Name) -> Option<usize>
    ensures { MatchOption result ((k : ℕ) → ContractNamed (map declares heads.now) name k → ⊥) (ContractNamed (map declares heads.now) name) }
{
    heads.iter().position(|head| head.ident.name == name)
}

// The number of a message of this name.
pub(crate) fn find_message(messages: &[Message], name: Name) -> Option<usize>
    ensures { MatchOption result ((m : ℕ) → MessageIn messages.now name m → ⊥) (MessageIn messages.now name) }
{
    messages
        .iter()
        .position(|message| message.ident.name == name)
}

// The number of a state of this name.
pub(crate) fn find_state(states: &[Ident], name: Name) -> Option<usize>
    ensures { MatchOption result ((s : ℕ) → StateIn states.now name s → ⊥) (StateIn states.now name) }
{
    states.iter().position(|state| state.name == name)
}

// The numbers of a contract of one name and of its state of the other.
pub(crate) fn find_end(heads: &[Head], contract: Name, state: Name) -> Option<(usize, usize)>
    ensures { MatchOption result ((k u : ℕ) → EndNamed (map declares heads.now) contract state k u → ⊥) (λ x. EndNamed (map declares heads.now) contract state x.0 x.1) }
{
    // The answer has both numbers, and a contract of the name may lack the state, so one `position` does not find it.
    for (k, head) in heads.iter().enumerate() {
        let own = head.ident.name;
        if own == contract {
            if let Some(u) = find_state(head.states.as_slice(), state) {
                return Some((k, u));
            }
        }
    }
    None
}
