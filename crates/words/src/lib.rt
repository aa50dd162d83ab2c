// The words of a text, one at a time, each with its place, from the caller's own bytes.
#![tactic(auto)]

mod byte;
pub mod fault;
mod keyword;
mod lexeme;
pub mod name;
pub mod reader;
pub mod word;
