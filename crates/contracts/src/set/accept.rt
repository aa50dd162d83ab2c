// From declarations and moves to an accepted set, or the first rule that is broken.
ghost use Rattle.std.specs.Prelude.{◌≡◌, ◌<◌, ◌≤◌, length, MatchResult};
ghost use Rattle.grammar.specs.Rows.{row_items};
ghost use Rattle.contracts.specs.Acceptance.{Accepted, Breaks, BreaksTable, Each, Gathered, tables_of};
ghost use Rattle.contracts.specs.Rules.{Positional, Ruled};
ghost use Rattle.contracts.specs.Tables.{states};
ghost use Rattle.contracts.specs.View.{tables_in};

use super::ContractSet;
use crate::broken::Broken;
use crate::by_numbers::ByNumbers;
use crate::contract::Contract;
use crate::marks::{first_mixed_marks, first_second_move, first_wrong_mark};
use crate::rule::earliest;
use crate::states::{AllReachable, AllSynchronising};
use crate::table::Table;
use crate::tabulate::tabulate_all;
use crate::transfers::AllLawful;
use grammar::row::Row;

// The contracts with these tables.
fn build(tables: &[Table]) -> Row<Contract, 8>
    requires some { 0 < length tables.now }
    requires few { length tables.now ≤ 8 }
    requires ruled { Each Ruled tables.now }
    ensures { tables_of (row_items result) ≡ tables.now }
{
    let mut contracts = Row::new(Contract::new(tables[0]));
    for table in tables {
        let _ = contracts.push(Contract::new(*table));
    }
    contracts
}

// The set with these tables, or the first rule on tables that is broken.
fn gather(tables: &[Table]) -> Result<ContractSet, Broken>
    requires some { 0 < length tables.now }
    requires few { length tables.now ≤ 8 }
    requires inhabited { Each (λ t. 0 < states t) tables.now }
    requires positional { Each Positional tables.now }
    ensures { MatchResult result (λ set. (tables_in set ≡ tables.now) × Gathered tables.now)
        (BreaksTable tables.now) }
{
    if let Some((k, s)) = earliest(&AllReachable, tables) {
        return Err(Broken::Unreachable(k, s));
    }
    if let Some((k, s)) = earliest(&AllSynchronising, tables) {
        return Err(Broken::OneWayCycle(k, s));
    }
    if let Some((k, m)) = earliest(&AllLawful, tables) {
        return Err(Broken::SilentEnd(k, m));
    }
    Ok(ContractSet {
        contracts: build(tables),
    })
}

/// The set of what is written, or the first rule from 9 to 14 that is broken, at the first move, state or message in the
/// order of the text. Each rule is tried over all contracts before the next.
pub(crate) fn accept(file: &ByNumbers) -> Result<ContractSet, Broken>
    ensures { MatchResult result (λ set. Accepted file.now.declarations.now file.now.moves.now (tables_in set))
        (Breaks file.now.declarations.now file.now.moves.now) }
{
    if let Some(i) = first_wrong_mark(file) {
        return Err(Broken::WrongMark(i));
    }
    if let Some(i) = first_second_move(file.moves) {
        return Err(Broken::SecondMove(i));
    }
    if let Some(i) = first_mixed_marks(file.moves) {
        return Err(Broken::MixedMarks(i));
    }
    gather(tabulate_all(file).as_slice())
}
