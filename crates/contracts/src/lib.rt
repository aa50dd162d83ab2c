// The rules on contracts, and the sets of contracts that keep them.
#![tactic(auto)]

mod broken;
mod by_numbers;
pub mod check;
mod contract;
pub mod declaration;
mod declared;
pub mod fault;
mod judge;
mod marks;
mod names;
mod number;
mod rank;
mod resolve;
mod rule;
pub mod set;
mod states;
mod table;
mod tabulate;
mod transfers;
mod undeclared;
mod walk;
