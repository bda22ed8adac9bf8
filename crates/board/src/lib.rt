//! The base event kinds of a run as one, and the store of their messages.
#![tactic(auto)]

pub mod board;
pub mod store;
