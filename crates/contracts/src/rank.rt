// How many moves the longest one-way paths have.
ghost use Rattle.std.specs.Prelude.{◌≡◌, ℕ, ◌<◌, ◌≤◌, length, MatchOption, slice_index};
ghost use Rattle.contracts.specs.Paths.{Furthest, Longest, OnCycle};
ghost use Rattle.contracts.specs.Rules.{OneWay};

use crate::table::Table;
use crate::walk::find_move;
use syntax::tree::Mark;

// A move to a state that is no lower, as its two states.
fn too_low(t: &Table, d: Mark, rank: &[u8; 16]) -> Option<(usize, usize)>
    ensures { MatchOption result
        ((s u : ℕ) → OneWay t.now d s u → slice_index rank.now u < slice_index rank.now s)
        (λ v. OneWay t.now d v.0 v.1 × (v.0 < 16) × (v.1 < 16) × (slice_index rank.now v.0 ≤ slice_index rank.now v.1)) }
{
    find_move(t, Some(d), |_| true, |s, u| rank[s] <= rank[u])
}

// For each state the number of moves on the longest one-way path from it.
fn ranks(t: &Table, d: Mark) -> [u8; 16]
    requires acyclic { (s : ℕ) → OnCycle (OneWay t.now d) s → ⊥ }
    ensures { (s : ℕ) → Furthest (OneWay t.now d) s (slice_index result s) }
{
    let mut rank = [0; 16];
    while let Some((s, u)) = too_low(t, d, &rank) {
        rank[s] = rank[u] + 1;
    }
    rank
}

// The highest of the ranks.
fn highest(rank: &[u8]) -> u8
    requires { 0 < length rank.now }
    ensures some { (s : ℕ) × (s < length rank.now) × (slice_index rank.now s ≡ result) }
    ensures most { (s : ℕ) → s < length rank.now → slice_index rank.now s ≤ result }
{
    rank.iter().copied().max().unwrap_or(0)
}

/// The number of moves on the longest one-way path.
pub(crate) fn longest(t: &Table, d: Mark) -> u8
    requires acyclic { (s : ℕ) → OnCycle (OneWay t.now d) s → ⊥ }
    ensures exact { Longest (OneWay t.now d) result }
    ensures small { result ≤ 15 }
{
    highest(&ranks(t, d))
}
