// Finds the first name of a file that is not declared in its family.
ghost use Rattle.std.specs.Prelude.{◌<◌, length};
ghost use Rattle.syntax.specs.Trees.{parts, Ranged};
ghost use Rattle.contracts.specs.Names.{Earlier, FirstOrNone, HeadsMissing, MessagesMissing, MoveMissing, MovesMissing};

use crate::number::{message_of, payload, target_of};
use syntax::tree::{Message, MoveEntry, Tree};
use words::name::Ident;

// Of two names the one that stands first in the text.
pub(crate) fn earlier(a: Option<Ident>, b: Option<Ident>) -> Option<Ident>
    ensures { Earlier a b result }
{
    match (a, b) {
        (Some(x), Some(y)) => { if y.place < x.place { Some(y) } else { Some(x) } }
        (Some(x), None) => Some(x),
        (None, Some(y)) => Some(y),
        (None, None) => None,
    }
}

// The first name in the payloads of these messages that is not declared.
fn in_messages(tree: &Tree, messages: &[Message]) -> Option<Ident>
    ensures { FirstOrNone (MessagesMissing (parts tree.now).heads messages.now) result }
{
    let mut first = None;
    for message in messages {
        let carried = message.payload;
        first = earlier(first, payload(tree, carried).err());
    }
    first
}

// The first name in all payloads that is not declared.
pub(crate) fn in_heads(tree: &Tree) -> Option<Ident>
    ensures { FirstOrNone (HeadsMissing (parts tree.now).heads) result }
{
    let mut first = None;
    for head in tree.heads() {
        first = earlier(first, in_messages(tree, head.messages.as_slice()));
    }
    first
}

// The first name of a move that is not declared.
fn in_move(tree: &Tree, entry: MoveEntry) -> Option<Ident>
    requires { entry.contract < length (parts tree.now).heads }
    ensures { FirstOrNone (MoveMissing (parts tree.now).heads entry) result }
{
    earlier(message_of(tree, entry).err(), target_of(tree, entry).err())
}

// The first name of a move of the file that is not declared.
pub(crate) fn in_moves(tree: &Tree) -> Option<Ident>
    requires { Ranged (parts tree.now) }
    ensures { FirstOrNone (MovesMissing (parts tree.now).heads (parts tree.now).moves) result }
{
    let mut first = None;
    for entry in tree.moves() {
        first = earlier(first, in_move(tree, *entry));
    }
    first
}
