// What people read: accepted sets as listings, and refusals with the word at fault underlined.
#![tactic(auto)]

pub mod accepted;
pub mod parts;
mod printed;
pub mod refused;
pub mod shown;
pub mod table;
