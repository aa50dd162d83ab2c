// Which states a contract's moves lead to.
ghost use Rattle.std.specs.Prelude.{◌≡◌, ℕ, ◌<◌, true, false, ◌⊎◌, Decides, MatchOption, slice_index_or};
ghost use Rattle.contracts.specs.Paths.{After};
ghost use Rattle.contracts.specs.Rules.{Along, Among, MaySend};

use crate::table::Table;
use syntax::tree::Mark;

// Is a message with the mark `x` among those meant: any, or those with one mark?
fn among(w: Option<Mark>, x: Mark) -> bool
    ensures { Decides result (Among w x) }
{
    w.is_none_or(|d| x == d)
}

// Where a move of the state `s` by a message among those meant goes, of those that pass the test.
fn find_target<F: Fn(usize, usize) -> bool>(
    t: &Table,
    w: Option<Mark>,
    s: usize,
    test: &F,
) -> Option<usize>
    requires callable { (u : ℕ) → u < 16 → F.pre test.now s u }
    ensures { MatchOption result
        ((u : ℕ) → Along t.now w s u → F.post test.now s u false)
        (λ u. Along t.now w s u × (u < 16) × F.post test.now s u true) }
{
    let messages = t.messages();
    for (m, place) in t.targets(s).iter().enumerate() {
        if let Some(to) = *place {
            let u = to as usize;
            if among(w, messages[m].mark) && test(s, u) {
                return Some(u);
            }
        }
    }
    None
}

/// A move by a message among those meant, of a state that passes the first test, that passes the second, as its two states.
/// No move of another state is looked at.
pub(crate) fn find_move<G: Fn(usize) -> bool, F: Fn(usize, usize) -> bool>(
    t: &Table,
    w: Option<Mark>,
    source: G,
    test: F,
) -> Option<(usize, usize)>
    requires sources { (s : ℕ) → s < 16 → G.pre source s }
    requires callable { (s u : ℕ) → s < 16 → u < 16 → F.pre test s u }
    ensures { MatchOption result
        ((s u : ℕ) → Along t.now w s u → G.post source s false ⊎ F.post test s u false)
        (λ v. Along t.now w v.0 v.1 × (v.0 < 16) × (v.1 < 16) × G.post source v.0 true × F.post test v.0 v.1 true) }
{
    // By number: the answer names the states.
    for s in 0..t.states().len() {
        if source(s) {
            if let Some(u) = find_target(t, w, s, &test) {
                return Some((s, u));
            }
        }
    }
    None
}

/// Which states can be reached from `from` by at least one move.
pub(crate) fn after(t: &Table, w: Option<Mark>, from: usize) -> [bool; 16]
    ensures { (u : ℕ) → Decides (slice_index_or result u false) (After (Along t.now w) from u) }
{
    let mut seen = [false; 16];
    while let Some((_, u)) = find_move(t, w, |s| s == from || seen[s], |_, u| !seen[u]) {
        seen[u] = true;
    }
    seen
}

/// Has the state `s` a move with the mark `d`, so that the end that sends these messages may send there?
pub(crate) fn may_send(t: &Table, d: Mark, s: usize) -> bool
    ensures { Decides result (MaySend t.now d s) }
{
    find_target(t, Some(d), s, &|_, _| true).is_some()
}
