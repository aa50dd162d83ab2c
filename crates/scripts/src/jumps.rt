// The rule on jumps: each leads to 0 to the number of instructions.
ghost use Rattle.std.specs.Prelude.{◌≡◌, MatchOption};
ghost use Rattle.scripts.specs.Jumps.{span_of_distance, JumpOutside as Outside, Lands};

use crate::position::Position;
use crate::rule::Rule;
use script_syntax::tree::{Distance, Statement};
use words::fault::{Source, Span};

// Where the distance of a jump stands that leads outside.
fn outside(at: Position, distance: Distance) -> Option<Span>
    ensures { MatchOption result (Lands at.count at.index distance.value) (λ s. (s ≡ span_of_distance distance) × (Lands at.count at.index distance.value → ⊥)) }
{
    match at.target(distance.value) {
        Some(_) => None,
        None => Some(Span {
            source: Source::Scripts,
            place: distance.place,
            len: distance.len,
        }),
    }
}

/// Every jump leads to 0 to the number of instructions of its process.
pub(crate) struct Jumps;

impl Rule for Jumps {
    ghost breaks = { λ rule n i x s. Outside n i x s };

    fn fault(&self, at: Position, statement: Statement) -> Option<Span> {
        match statement {
            Statement::Case { distance, .. } => outside(at, distance),
            Statement::Lost { distance } => outside(at, distance),
            Statement::Jump { distance } => outside(at, distance),
            _ => None,
        }
    }
}
