// The rules on scripts, and the sets of scripts that keep them, each with the contract set that it was read against.
#![tactic(auto)]

pub mod check;
pub mod fault;
pub mod instruction;
mod judge;
mod jumps;
mod payloads;
mod position;
pub mod refusal;
mod resolution;
mod resolve;
mod rule;
mod script;
pub mod set;
