// What a grammar rests on: words as it asks for them, lists in tables, and faults.
#![tactic(auto)]

pub mod family;
pub mod fault;
pub mod feed;
mod fetch;
pub mod row;
