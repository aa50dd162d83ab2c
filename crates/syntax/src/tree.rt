// A contract file as it is written: what each contract declares, and all moves in the order of the text.
ghost use Rattle.std.specs.Prelude.{◌≡◌};
ghost use Rattle.grammar.specs.Rows.{row_items};
ghost use Rattle.syntax.specs.Roles.{sends};

use grammar::row::Row;
use words::name::Ident;

/// A message is sent by the exporting end (`out`, marked `!`) or by the importing end (`in`, marked `?`).
#[derive(Clone, Copy, PartialEq, Eq)]
pub enum Mark {
    Out,
    In,
}

/// The two ends of a channel, `exp` and `imp`.
#[derive(Clone, Copy, PartialEq, Eq)]
pub enum Role {
    Exporting,
    Importing,
}

/// The mark of the messages that an end sends: the exporting end those that are `out`, the importing end those that are `in`.
impl From<Role> for Mark {
    ghost from_gives = { λ r m. m ≡ sends r };

    fn from(role: Role) -> Mark {
        match role {
            Role::Exporting => Mark::Out,
            Role::Importing => Mark::In,
        }
    }
}

/// What a message is declared to carry: nothing, a block, or an end of a contract in a state.
// By names, where an accepted contract has numbers: one enum over both would put a type into each clause on either.
#[derive(Clone, Copy)]
pub enum Payload {
    Nothing,
    Block,
    End {
        role: Role,
        contract: Ident,
        state: Ident,
    },
}

/// A message as it is declared.
#[derive(Clone, Copy)]
pub struct Message {
    pub mark: Mark,
    pub ident: Ident,
    pub payload: Payload,
}

/// A move as it is written: a message, a mark and a target.
#[derive(Clone, Copy)]
pub struct Move {
    pub message: Ident,
    pub mark: Mark,
    pub target: Ident,
}

/// A move with its contract's and its state's number.
#[derive(Clone, Copy)]
pub struct MoveEntry {
    pub contract: usize,
    pub state: usize,
    pub step: Move,
}

/// What a contract declares: its name, its messages and its states' names, each numbered as they appear.
#[derive(Clone, Copy)]
pub struct Head {
    pub ident: Ident,
    pub messages: Row<Message, 16>,
    pub states: Row<Ident, 16>,
}

/// The contracts of a file, and all their moves in the order of the text.
// That all numbers are in range is a clause of `read_contracts`: as a ghost field it would name what speaks of the tree.
/// A file of 4,096 bytes has at most 682 moves, since a move takes six.
#[derive(Drop)]
pub struct Tree {
    heads: Row<Head, 8>,
    moves: Row<MoveEntry, 682>,
}

impl Tree {
    // The contracts and moves in these tables.
    pub(crate) fn new(heads: Row<Head, 8>, moves: Row<MoveEntry, 682>) -> Tree
        ensures { (row_items result.heads ≡ row_items heads) × (row_items result.moves ≡ row_items moves) }
    {
        Tree { heads, moves }
    }

    /// What each contract declares, in the order of the text.
    pub fn heads(&self) -> &[Head]
        ensures { result.now ≡ row_items self.now.heads }
    {
        self.heads.as_slice()
    }

    /// All moves in the order of the text.
    pub fn moves(&self) -> &[MoveEntry]
        ensures { result.now ≡ row_items self.now.moves }
    {
        self.moves.as_slice()
    }
}
