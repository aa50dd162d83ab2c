// Accepted sets of scripts.
ghost use Rattle.std.specs.Prelude.{ℕ, ◌<◌, ◌≤◌, length};
ghost use Rattle.grammar.specs.Rows.{row_items};
ghost use Rattle.contracts.specs.View.{tables_in};
ghost use Rattle.scripts.specs.Runnable.{AllRunnable, OneName};
ghost use Rattle.scripts.specs.Scripts.{instructions_of, scripts_of};

use crate::script::Script;
use contracts::set::ContractSet;
use grammar::row::Row;

mod jumps;
mod laws;
mod names;
mod new;
mod view;

/// One to eight processes of at most 64 instructions each, with the contract set that they were read against. Each process
/// has a name of its own, and each instruction can be run with no further doubt: its operands are in range, its contract and
/// message are declared, `send` names a message without payload and `pass` one with, and a jump leads to 0 to the number of
/// instructions.
#[derive(Drop)]
pub struct ScriptSet {
    scripts: Row<Script, 8>,
    contracts: ContractSet,
    ghost some: { 0 < length (scripts_of (row_items scripts)) },
    ghost few: { length (scripts_of (row_items scripts)) ≤ 8 },
    ghost short: { (p : ℕ) → length (instructions_of (scripts_of (row_items scripts)) p) ≤ 64 },
    ghost one_name: { OneName (scripts_of (row_items scripts)) },
    ghost runnable: { AllRunnable (tables_in contracts) (scripts_of (row_items scripts)) },
}
