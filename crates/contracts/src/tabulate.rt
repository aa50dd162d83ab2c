// From moves as they are written to tables.
ghost use Rattle.std.specs.Prelude.{◌≡◌, ℕ, ◌<◌, length};
ghost use Rattle.grammar.specs.Rows.{row_items};
ghost use Rattle.contracts.specs.Acceptance.{Tabled};
ghost use Rattle.contracts.specs.Moves.{Goes};
ghost use Rattle.contracts.specs.Numbers.{written_at};
ghost use Rattle.contracts.specs.Rules.{Never};
ghost use Rattle.contracts.specs.Written.{Holds, Listed, SecondMove};

use crate::by_numbers::ByNumbers;
use crate::declaration::Written;
use crate::table::Table;
use grammar::row::Row;

// The moves of the contract `c` as rows of targets.
fn fill(moves: &[Written], c: usize) -> [[Option<u8>; 16]; 16]
    requires small { (i : ℕ) → i < length moves.now → (written_at moves.now i).contract ≡ c → ((written_at moves.now i).state < 16) × ((written_at moves.now i).message < 16) }
    requires once { Never (SecondMove moves.now) }
    ensures listed { (s m u : ℕ) → Goes result s m u → Listed moves.now (length moves.now) c s m u }
    ensures goes { (s m u : ℕ) → Listed moves.now (length moves.now) c s m u → Goes result s m u }
{
    let mut rows = [[None; 16]; 16];
    for w in moves {
        if w.contract == c {
            rows[w.state][w.message] = Some(w.target);
        }
    }
    rows
}

// The table of contract `c`.
fn tabulate(file: &ByNumbers, c: usize) -> Table
    requires within { c < length file.now.declarations.now }
    requires once { Never (SecondMove file.now.moves.now) }
    ensures { Holds result file.now.declarations.now file.now.moves.now c }
{
    Table {
        declaration: file.declarations[c],
        moves: fill(file.moves, c),
    }
}

/// The tables of all contracts, first to last.
pub(crate) fn tabulate_all(file: &ByNumbers) -> Row<Table, 8>
    requires { Never (SecondMove file.now.moves.now) }
    ensures { Tabled file.now.declarations.now file.now.moves.now (row_items result) }
{
    let mut tables = Row::new(tabulate(file, 0));
    // By number: a table is made of a contract's number.
    for c in 0..file.declarations.len() {
        let _ = tables.push(tabulate(file, c));
    }
    tables
}
