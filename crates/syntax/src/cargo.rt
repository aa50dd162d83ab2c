// What the word behind a message's name says that the message carries.
use crate::tree::Role;

// Nothing where the message ends, a block, or an end whose contract and state follow.
// An enum of its own: an Option of an Option of a role would leave all three without a name.
#[derive(Clone, Copy)]
pub(crate) enum Cargo {
    Nothing,
    Block,
    End(Role),
}
