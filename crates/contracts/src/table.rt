// A contract as tables: what it declares, and where each state goes by each message.
ghost use Rattle.std.specs.Prelude.{◌≡◌, ◌≤◌, [], length, slice_index_or, take};
ghost use Rattle.grammar.specs.Rows.{row_items};
ghost use Rattle.contracts.specs.Moves.{Declared, target_in};

use crate::declaration::{Declaration, Message};
use words::name::Name;

/// What a contract declares, and its moves: `moves[s][m]` is where the state `s` goes by the message `m`, so that a
/// state has at most one move for a message. All numbers are declared.
#[derive(Clone, Copy)]
pub struct Table {
    pub declaration: Declaration,
    pub moves: [[Option<u8>; 16]; 16],
    ghost declared: { Declared (length (row_items declaration.messages)) (length (row_items declaration.states)) moves },
}

impl Table {
    /// Where the state `s` goes by the message `m`; none where it has no such move, or there is no such state or message.
    pub(crate) fn target(&self, s: usize, m: usize) -> Option<u8>
        ensures { result ≡ target_in self.now.moves s m }
    {
        *self.moves.get(s)?.get(m)?
    }

    #[tactic(auto, using(crate::proofs::Targets::row_small))]
    /// Where the state `s` goes by each message that the contract declares; nothing where there is no such state.
    pub(crate) fn targets(&self, s: usize) -> &[Option<u8>]
        ensures { result.now ≡ take (length (row_items self.now.declaration.messages)) (slice_index_or self.now.moves s []) }
    {
        match self.moves.get(s) {
            Some(row) => &row[..self.messages().len()],
            None => &[],
        }
    }

    /// The messages that the contract declares.
    pub(crate) fn messages(&self) -> &[Message]
        ensures { result.now ≡ row_items self.now.declaration.messages }
    {
        self.declaration.messages.as_slice()
    }

    #[tactic(auto, using(crate::proofs::Targets::row_small))]
    /// The names of the states that the contract declares.
    pub(crate) fn states(&self) -> &[Name]
        ensures names { result.now ≡ row_items self.now.declaration.states }
        ensures few { length result.now ≤ 16 }
    {
        self.declaration.states.as_slice()
    }
}
