// Contracts as they are declared, with numbers in place of names. These are types of their own beside those of a file's tree,
// since a set outlives the text and its places.
use grammar::row::Row;
use syntax::tree::{Mark, Role};
use words::name::Name;

/// What a message carries: nothing, a block, or an end of a contract in a state.
#[derive(Clone, Copy)]
pub enum Payload {
    Nothing,
    Block,
    End { role: Role, contract: u8, state: u8 },
}

/// A message: its name, who sends it, and what it carries.
#[derive(Clone, Copy)]
pub struct Message {
    pub name: Name,
    pub mark: Mark,
    pub payload: Payload,
}

/// What a contract declares: its name, its messages and the names of its states, each in the order of the text.
#[derive(Clone, Copy)]
pub struct Declaration {
    pub name: Name,
    pub messages: Row<Message, 16>,
    pub states: Row<Name, 16>,
}

/// A move by its numbers: in a contract's state, by a message, with a mark, to a state.
#[derive(Clone, Copy)]
pub struct Written {
    pub contract: usize,
    pub state: usize,
    pub message: usize,
    pub mark: Mark,
    pub target: u8,
}
