//! Base event kinds: what every kind shows, and the five delivered ones.
#![tactic(auto)]

pub mod bare;
pub mod buffer;
pub mod channel;
pub mod kind;
pub mod mailbox;
mod offers;
mod ring;
pub mod rule;
pub mod timeout;
pub mod variable;
