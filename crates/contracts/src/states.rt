// The rules on states: each can be reached, and none lies on a one-way cycle.
ghost use Rattle.std.specs.Prelude.{◌<◌, Decides, MatchOption};
ghost use Rattle.contracts.specs.Rules.{Cycling, First, Reachable, Synchronising, Unreached};
ghost use Rattle.contracts.specs.Tables.{states, table_at};

use crate::rule::Rule;
use crate::table::Table;
use crate::walk::after;
use syntax::tree::Mark;

// The first state that cannot be reached from state 0.
fn first_unreached(t: &Table) -> Option<usize>
    ensures { MatchOption result (Reachable t.now) (First (Unreached t.now)) }
{
    let seen = after(t, None, 0);
    (0..t.states().len()).find(|&s| s != 0 && !seen[s])
}

/// Every state can be reached from state 0.
pub struct AllReachable;

impl Rule for AllReachable {
    ghost keeps = { λ tables k. Reachable (table_at tables k) };

    ghost breaks = { λ tables k s. Unreached (table_at tables k) s };

    fn first(&self, tables: &[Table], k: usize) -> Option<usize> {
        first_unreached(&tables[k])
    }
}

// Does the state `s` lie on a one-way cycle?
fn cycling(t: &Table, s: usize) -> bool
    requires within { s < states t.now }
    ensures { Decides result (Cycling t.now s) }
{
    after(t, Some(Mark::Out), s)[s] || after(t, Some(Mark::In), s)[s]
}

// The first state that lies on a one-way cycle.
fn first_cycling(t: &Table) -> Option<usize>
    ensures { MatchOption result (Synchronising t.now) (First (Cycling t.now)) }
{
    (0..t.states().len()).find(|&s| cycling(t, s))
}

/// No state lies on a one-way cycle.
pub struct AllSynchronising;

impl Rule for AllSynchronising {
    ghost keeps = { λ tables k. Synchronising (table_at tables k) };

    ghost breaks = { λ tables k s. Cycling (table_at tables k) s };

    fn first(&self, tables: &[Table], k: usize) -> Option<usize> {
        first_cycling(&tables[k])
    }
}
