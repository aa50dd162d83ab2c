// A contract file by numbers, as its rules are tried on it.
ghost use Rattle.contracts.specs.Written.{Resolved};

use crate::declaration::{Declaration, Written};

/// What each contract of a file declares, and all moves in the order of the text. All numbers are declared.
#[derive(Clone, Copy)]
pub(crate) struct ByNumbers<'a> {
    pub(crate) declarations: &'a [Declaration],
    pub(crate) moves: &'a [Written],
    ghost resolved: { Resolved declarations.now moves.now },
}
