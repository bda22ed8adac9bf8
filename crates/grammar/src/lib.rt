//! The grammar of scripts.
#![tactic(auto)]

pub mod form;
mod items;
pub mod laws;
pub mod part;
pub mod words;
