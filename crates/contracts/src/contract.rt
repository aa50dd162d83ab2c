// A contract that keeps the rules on its own states.
ghost use Rattle.std.specs.Prelude.{◌≡◌, ◌<◌};
ghost use Rattle.contracts.specs.Paths.{Longest};
ghost use Rattle.contracts.specs.Rules.{OneWay, Positional, Reachable, Ruled, Synchronising};
ghost use Rattle.contracts.specs.Tables.{states};
ghost use Rattle.syntax.specs.declared.tree.Mark.TheVariants.{Out, In};

use crate::rank::longest;
use crate::table::Table;
use syntax::tree::Mark;

/// A contract's table, with the number of moves on its longest one-way path of each mark.
#[derive(Clone, Copy)]
pub struct Contract {
    table: Table,
    out_bound: u8,
    in_bound: u8,
    ghost inhabited: { 0 < states table },
    ghost positional: { Positional table },
    ghost reachable: { Reachable table },
    ghost synchronising: { Synchronising table },
    ghost out_longest: { Longest (OneWay table Out) out_bound },
    ghost in_longest: { Longest (OneWay table In) in_bound },
}

impl Contract {
    /// The contract with this table, which keeps the rules.
    pub(crate) fn new(table: Table) -> Contract
        requires { Ruled table }
        ensures { result.table ≡ table }
    {
        Contract {
            out_bound: longest(&table, Mark::Out),
            in_bound: longest(&table, Mark::In),
            table,
        }
    }

    /// The contract's table.
    pub(crate) fn table(&self) -> &Table
        ensures { result.now ≡ self.now.table }
    {
        &self.table
    }

    /// The number of moves on the longest one-way path with the mark `d`.
    pub(crate) fn bound(&self, d: Mark) -> u8
        ensures { Longest (OneWay self.now.table d) result }
    {
        match d {
            Mark::Out => self.out_bound,
            Mark::In => self.in_bound,
        }
    }
}
