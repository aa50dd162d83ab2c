// Accepted sets of contracts.
ghost use Rattle.std.specs.Prelude.{◌<◌, length};
ghost use Rattle.grammar.specs.Rows.{row_items};
ghost use Rattle.contracts.specs.Acceptance.{Each, tables_of};
ghost use Rattle.contracts.specs.Transfers.{Lawful};

use crate::contract::Contract;
use grammar::row::Row;

pub(crate) mod accept;
mod bounds;
pub mod family;
mod laws;
mod names;
mod view;

/// One to eight contracts, each of which keeps the rules on its states, and whose messages carry ends only in states in
/// which these may send.
#[derive(Clone, Copy)]
pub struct ContractSet {
    contracts: Row<Contract, 8>,
    ghost some: { 0 < length (row_items contracts) },
    ghost lawful: { Each (Lawful (tables_of (row_items contracts))) (tables_of (row_items contracts)) },
}
