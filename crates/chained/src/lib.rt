// A carrier that links messages in cells shared by all boxes.
#![tactic(auto)]

mod cells;
pub mod chained;
mod links;
