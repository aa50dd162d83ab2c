// Where a statement stands among those of its process, and where jumps lead from there.
ghost use Rattle.std.specs.Prelude.{◌≡◌, ◌<◌, ◌≤◌, pos, ◌+ℤ◌, MatchOption};
ghost use Rattle.scripts.specs.Jumps.{Lands};

/// The number of a statement, and how many statements its process has: at most 64.
#[derive(Clone, Copy)]
pub(crate) struct Position {
    index: usize,
    count: usize,
    ghost within: { index < count },
    ghost few: { count ≤ 64 },
}

impl Position {
    /// The position `index` among `count`.
    pub(crate) fn new(index: usize, count: usize) -> Position
        requires within { index < count }
        requires few { count ≤ 64 }
        ensures { (result.index ≡ index) × (result.count ≡ count) }
    {
        Position { index, count }
    }

    /// Where a jump from here over a distance leads; none where that is outside 0 to the number of statements.
    pub(crate) fn target(self, distance: i16) -> Option<usize>
        ensures { MatchOption result (Lands self.count self.index distance → ⊥) (λ t. (pos t ≡ pos self.index +ℤ distance) × (t ≤ self.count)) }
    {
        let at = self.index as i64 + distance as i64;
        if at < 0 || at > self.count as i64 {
            return None;
        }
        Some(at as usize)
    }
}
