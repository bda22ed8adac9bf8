//! Checking a script: every refusal, and the table that an accepted script leaves.
#![tactic(auto)]

pub mod check;
pub mod checked;
pub mod fault;
pub mod laws;
mod parsed;
