// The rule on messages that carry an end: it may send in the state that is declared.
ghost use Rattle.std.specs.Prelude.{Decides, MatchOption};
ghost use Rattle.contracts.specs.Rules.{First};
ghost use Rattle.contracts.specs.Tables.{table_at};
ghost use Rattle.contracts.specs.Transfers.{Lawful, Sendable, SendState, SilentEnd};

use crate::declaration::Payload;
use crate::rule::Rule;
use crate::table::Table;
use crate::walk::may_send;
use syntax::tree::Role;

// Is `s` a state of contract `c` in which this end may send?
fn send_state(tables: &[Table], role: Role, c: usize, s: usize) -> bool
    ensures { Decides result (SendState tables.now role c s) }
{
    tables
        .get(c)
        .is_some_and(|t| s < t.states().len() && may_send(t, role.into(), s))
}

// May this be carried: an end only in a state in which it may send?
fn sendable(tables: &[Table], p: Payload) -> bool
    ensures { Decides result (Sendable tables.now p) }
{
    match p {
        Payload::Nothing => true,
        Payload::Block => true,
        Payload::End {
            role,
            contract,
            state,
        } => send_state(tables, role, contract as usize, state as usize),
    }
}

// The first message of `t` that carries what may not be carried.
fn first_silent_end(tables: &[Table], t: &Table) -> Option<usize>
    ensures { MatchOption result (Lawful tables.now t.now) (First (SilentEnd tables.now t.now)) }
{
    t.messages()
        .iter()
        .position(|message| !sendable(tables, message.payload))
}

/// An end that a message carries may send in the state that is declared.
pub struct AllLawful;

impl Rule for AllLawful {
    ghost keeps = { λ tables k. Lawful tables (table_at tables k) };

    ghost breaks = { λ tables k m. SilentEnd tables (table_at tables k) m };

    fn first(&self, tables: &[Table], k: usize) -> Option<usize> {
        first_silent_end(tables, &tables[k])
    }
}
