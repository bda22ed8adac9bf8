//! The replay of a list of calls: what each one answers, and the trace, under any policy.
//!
//! The replay itself is in specs/; the types here are what it shares with the code above.
#![tactic(auto)]

pub mod candidate;
pub mod fault;
pub mod laws;
pub mod worked;
