// The families of names in a set of contracts.

/// The contracts, the messages of a contract, or its states.
#[derive(Clone, Copy)]
pub enum Family {
    Contracts,
    Messages(usize),
    States(usize),
}
