//! The rendezvous rules, and what holds of every run.
//!
//! The rules themselves are in specs/; the enums here are what they share with the code above.
#![tactic(auto)]

pub mod kind;
pub mod laws;
pub mod nack;
pub mod offer;
