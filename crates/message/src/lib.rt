//! Messages: what tasks send, receive and hold, and the literals in which they are written.
#![tactic(auto)]

pub mod decimal;
mod joined;
pub mod kind;
pub mod literal;
pub mod page;
pub mod ticket;
pub mod weight;
pub mod weight_kind;
