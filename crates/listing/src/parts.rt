// Texts that are composed of parts in the order of their numbers, as listings are.
ghost use Rattle.std.specs.Prelude.{◌≡◌, ℕ, ◌<◌, List, [], Some, MatchOption};
ghost use Rattle.listing.specs.Listings.{lines};

use std::fmt;

/// What is listed part by part.
pub trait Parts {
    /// What shows a part.
    type Part: fmt::Display + Drop;

    // How many numbers there are.
    ghost part_count: { Self → ℕ };

    // The text of the part with a number.
    ghost part_text: { Self → ℕ → List ℕ };

    /// How many numbers there are.
    fn part_count(&self) -> usize
        ensures answer { result ≡ part_count self.now };

    /// The part with a number; none where its text is empty, or there is no such number.
    fn part(&self, i: usize) -> Option<Self::Part>
        ensures answer { MatchOption result (i < part_count self.now → part_text self.now i ≡ []) (λ x. Self.Part.output x ≡ Some (part_text self.now i)) };
}

/// All parts, one after the other.
#[derive(Clone, Copy)]
pub struct AllParts<P>(pub P);

impl<P: Parts> fmt::Display for AllParts<P> {
    ghost output = { λ all. Some (lines (P.part_text all.0) (P.part_count all.0)) };

    fn fmt<W: fmt::Write>(&self, f: &mut fmt::Formatter<W>) -> fmt::Result {
        // A part is asked for by its number, so the loop goes over numbers.
        for i in 0..self.0.part_count() {
            if let Some(part) = self.0.part(i) {
                f.write(part)?;
            }
        }
        Ok(())
    }
}
