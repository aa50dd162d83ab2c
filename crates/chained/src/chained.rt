// A carrier that links messages in cells shared by all boxes.
use crate::cells::Cells;
use carriers::limited::Limited;

/// A carrier with 128 cells, of which a box uses one for each of its messages: the pool is 128.
pub type Chained = Limited<Cells>;
