// A rule that each statement of a script file has to keep, and the first statement that does not.
ghost use Rattle.std.specs.Prelude.{◌≡◌, ℕ, ◌<◌, ◌≤◌, MatchOption};
ghost use Rattle.words.specs.declared.fault.Span.{Span};
ghost use Rattle.grammar.specs.Rows.{row_items};
ghost use Rattle.script_syntax.specs.declared.tree.Statement.{Statement};
ghost use Rattle.script_syntax.specs.Trees.{processes_of};
ghost use Rattle.scripts.specs.Places.{Earliest, FirstIn, KeptBy, KeptIn};

use crate::position::Position;
use grammar::row::Row;
use script_syntax::tree::{Process, Statement};
use words::fault::Span;

// Beside the trait of contracts, which ranges over tables and finds numbers: one over both would have as many members as both.
/// A rule on the statements of a file.
pub(crate) trait Rule {
    // the statement, the i-th of n, breaks the rule at a part of the text
    ghost breaks: { Self → ℕ → ℕ → Statement → Span → Type 0 };

    /// Where the statement, which stands here, breaks the rule.
    fn fault(&self, at: Position, statement: Statement) -> Option<Span>
        ensures { MatchOption result ((s : Span) → breaks self.now at.count at.index statement s → ⊥) (breaks self.now at.count at.index statement) };
}

// Where the first of these statements that breaks the rule does so.
fn first_in<R: Rule>(rule: &R, statements: &Row<Statement, 64>) -> Option<Span>
    ensures { MatchOption result (KeptIn (R.breaks rule.now) (row_items statements.now)) (FirstIn (R.breaks rule.now) (row_items statements.now)) }
{
    let all = statements.as_slice();
    for (index, statement) in all.iter().enumerate() {
        let at = Position::new(index, all.len());
        if let Some(span) = rule.fault(at, *statement) {
            return Some(span);
        }
    }
    None
}

/// Where the first statement of a file that breaks the rule does so: the processes in order, and in each its statements.
pub(crate) fn earliest<R: Rule>(rule: &R, processes: &[Process]) -> Option<Span>
    ensures { MatchOption result (KeptBy (R.breaks rule.now) (processes_of processes.now)) (Earliest (R.breaks rule.now) (processes_of processes.now)) }
{
    for process in processes {
        if let Some(span) = first_in(rule, &process.statements) {
            return Some(span);
        }
    }
    None
}
