// A contract file by numbers, or its first name that is not declared.
ghost use Rattle.std.specs.Prelude.{◌<◌, length, MatchResult};
ghost use Rattle.grammar.specs.Rows.{row_items};
ghost use Rattle.syntax.specs.Trees.{parts, Ranged};
ghost use Rattle.contracts.specs.Names.{FirstOrNone, FirstUnresolved, MoveMissing, MovesMissing, Unresolved};
ghost use Rattle.contracts.specs.Numbers.{Moved, Numbers, WrittenAs};

use crate::declaration::{Declaration, Written};
use crate::declared::declarations;
use crate::number::{message_of, target_of};
use crate::undeclared::{earlier, in_heads, in_moves};
use grammar::row::Row;
use syntax::tree::{Mark, MoveEntry, Tree};
use words::name::Ident;

/// A contract file by numbers: what each contract declares, and all moves in the order of the text.
#[derive(Drop)]
pub(crate) struct Numbered {
    pub(crate) declarations: Row<Declaration, 8>,
    pub(crate) moves: Row<Written, 682>,
}

// What stands in the unused places of a row.
const NO_MOVE: Written = Written {
    contract: 0,
    state: 0,
    message: 0,
    mark: Mark::Out,
    target: 0,
};

// A move by numbers, or a name of it that is not declared.
fn written(tree: &Tree, entry: MoveEntry) -> Result<Written, Ident>
    requires { entry.contract < length (parts tree.now).heads }
    ensures { MatchResult result (WrittenAs (parts tree.now).heads entry) (MoveMissing (parts tree.now).heads entry) }
{
    let message = message_of(tree, entry)?;
    let target = target_of(tree, entry)?;
    Ok(Written {
        contract: entry.contract,
        state: entry.state,
        message,
        mark: entry.step.mark,
        target,
    })
}

// All moves by numbers, or a name of a move that is not declared.
fn all_moves(tree: &Tree) -> Result<Row<Written, 682>, Ident>
    requires { Ranged (parts tree.now) }
    ensures { MatchResult result (λ ws. Moved (parts tree.now).heads (parts tree.now).moves (row_items ws)) (MovesMissing (parts tree.now).heads (parts tree.now).moves) }
{
    let mut all = Row::new(NO_MOVE);
    for entry in tree.moves() {
        let next = written(tree, *entry)?;
        let _ = all.push(next);
    }
    Ok(all)
}

// The first name of a file that is not declared.
fn first_undeclared(tree: &Tree) -> Option<Ident>
    requires { Ranged (parts tree.now) }
    ensures { FirstOrNone (Unresolved (parts tree.now)) result }
{
    earlier(in_heads(tree), in_moves(tree))
}

// A file by numbers, or a name of it that is not declared.
fn by_numbers(tree: &Tree) -> Result<Numbered, Ident>
    requires { Ranged (parts tree.now) }
    ensures { MatchResult result (λ n. Numbers (parts tree.now) (row_items n.declarations) (row_items n.moves)) (Unresolved (parts tree.now)) }
{
    Ok(Numbered {
        declarations: declarations(tree)?,
        moves: all_moves(tree)?,
    })
}

/// The file by numbers, or the first name of the text that is not declared in its family.
pub(crate) fn resolve(tree: &Tree) -> Result<Numbered, Ident>
    requires { Ranged (parts tree.now) }
    ensures { MatchResult result (λ n. Numbers (parts tree.now) (row_items n.declarations) (row_items n.moves)) (FirstUnresolved (parts tree.now)) }
{
    match first_undeclared(tree) {
        Some(ident) => Err(ident),
        None => by_numbers(tree),
    }
}
