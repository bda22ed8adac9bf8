//! Policies: which able task takes the next step, and at which leaf.
#![tactic(auto)]

pub mod longest_idle;
pub mod policy;
pub mod turnabout;
