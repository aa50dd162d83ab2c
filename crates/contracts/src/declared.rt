// What the contracts of a file declare, by numbers.
ghost use Rattle.std.specs.Prelude.{◌≡◌, ◌≤◌, length, MatchResult};
ghost use Rattle.grammar.specs.Rows.{row_items};
ghost use Rattle.syntax.specs.Trees.{declares, parts};
ghost use Rattle.contracts.specs.Names.{HeadsMissing, MessagesMissing, PayloadMissing};
ghost use Rattle.contracts.specs.Numbers.{Declared, DeclaredAs, MessageAs, MessagesAs, StatesAs};

use crate::declaration::{Declaration, Message, Payload};
use crate::number::payload;
use grammar::row::Row;
use syntax::tree::{Head, Mark, Message as MessageTree, Tree};
use words::name::{Ident, Name};

// What stands in the unused places of a row.
const NO_NAME: Name = Name {
    len: 0,
    bytes: [0; 16],
};

const NO_MESSAGE: Message = Message {
    name: NO_NAME,
    mark: Mark::Out,
    payload: Payload::Nothing,
};

// A message by numbers, or a name of its payload that is not declared.
fn message(tree: &Tree, written: MessageTree) -> Result<Message, Ident>
    ensures { MatchResult result (MessageAs (parts tree.now).heads written) (PayloadMissing (parts tree.now).heads written.payload) }
{
    let carried = payload(tree, written.payload)?;
    Ok(Message {
        name: written.ident.name,
        mark: written.mark,
        payload: carried,
    })
}

// The messages of a contract by numbers, or a name of a payload that is not declared.
fn all_messages(tree: &Tree, written: &[MessageTree]) -> Result<Row<Message, 16>, Ident>
    requires { length written.now ≤ 16 }
    ensures { MatchResult result (λ ms. (length (row_items ms) ≡ length written.now) × MessagesAs (parts tree.now).heads written.now (row_items ms)) (MessagesMissing (parts tree.now).heads written.now) }
{
    let mut all = Row::new(NO_MESSAGE);
    for next in written {
        let numbered = message(tree, *next)?;
        let _ = all.push(numbered);
    }
    Ok(all)
}

// The names of a contract's states.
fn all_states(written: &[Ident]) -> Row<Name, 16>
    requires { length written.now ≤ 16 }
    ensures { (length (row_items result) ≡ length written.now) × StatesAs written.now (row_items result) }
{
    let mut all = Row::new(NO_NAME);
    for state in written {
        let _ = all.push(state.name);
    }
    all
}

// What a contract declares by numbers, or a name of a payload that is not declared.
fn declaration(tree: &Tree, head: &Head) -> Result<Declaration, Ident>
    ensures { MatchResult result (DeclaredAs (parts tree.now).heads (declares head.now)) (MessagesMissing (parts tree.now).heads (declares head.now).messages) }
{
    Ok(Declaration {
        name: head.ident.name,
        messages: all_messages(tree, head.messages.as_slice())?,
        states: all_states(head.states.as_slice()),
    })
}

// What each contract declares by numbers, or a name of a payload that is not declared.
pub(crate) fn declarations(tree: &Tree) -> Result<Row<Declaration, 8>, Ident>
    ensures { MatchResult result (λ ds. Declared (parts tree.now).heads (row_items ds)) (HeadsMissing (parts tree.now).heads) }
{
    let mut all = Row::new(Declaration {
        name: NO_NAME,
        messages: Row::new(NO_MESSAGE),
        states: Row::new(NO_NAME),
    });
    for head in tree.heads() {
        let next = declaration(tree, head)?;
        let _ = all.push(next);
    }
    Ok(all)
}
