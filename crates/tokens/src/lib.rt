//! The text of a script, and its tokens.
#![tactic(auto)]

pub mod integer;
pub mod text;
pub mod token;
