// What people read of an accepted set of scripts.
#![tactic(auto)]

pub mod accepted;
