// Carriers of messages: what one means, one over any store of messages, and a store that copies messages into bytes.
#![tactic(auto)]

pub mod box_number;
pub mod carrier;
pub mod copying;
pub mod limit;
pub mod limited;
pub mod limits;
pub mod message;
pub mod refusal;
mod row;
mod rows;
pub mod store;
