// A carrier that copies messages into bytes of its own.
use crate::limited::Limited;
use crate::rows::Rows;

/// A carrier with a row of 30 bytes for each box, so that every box can have the greatest limit: the pool is 960.
pub type Copying = Limited<Rows>;
