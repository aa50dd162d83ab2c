// A rule that each contract of a file has to keep, and the first contract that does not.
ghost use Rattle.std.specs.Prelude.{ℕ, ◌<◌, List, length, MatchOption};
ghost use Rattle.contracts.specs.declared.table.Table.{Table};
ghost use Rattle.contracts.specs.Rules.{First};

use crate::table::Table;

/// A rule on the tables of a file's contracts.
pub trait Rule {
    // contract k keeps the rule
    ghost keeps: { List Table → ℕ → Type 0 };
    // state or message i of contract k breaks it
    ghost breaks: { List Table → ℕ → ℕ → Type 0 };

    /// The first state or message of contract `k` that breaks the rule.
    fn first(&self, tables: &[Table], k: usize) -> Option<usize>
        requires { k < length tables.now }
        ensures { MatchOption result (keeps tables.now k) (First (breaks tables.now k)) };
}

/// The first contract that breaks the rule, with its first state or message that does.
pub(crate) fn earliest<R: Rule>(rule: &R, tables: &[Table]) -> Option<(usize, usize)>
    ensures { MatchOption result
        ((k : ℕ) → k < length tables.now → R.keeps tables.now k)
        (λ v. (v.0 < length tables.now) × First (R.breaks tables.now v.0) v.1
        × ((k : ℕ) → k < v.0 → R.keeps tables.now k)) }
{
    // By number: a rule takes the contract's number, and `find_map` over the numbers leaves a goal that no lemma closes.
    for k in 0..tables.len() {
        if let Some(i) = rule.first(tables, k) {
            return Some((k, i));
        }
    }
    None
}
