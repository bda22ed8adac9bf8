//! What a script must keep beyond its form: ranges, names, limits and literals.
//!
//! Each pass goes over the parts in order, and finds the first token that breaks its rule.
#![tactic(auto)]

pub mod limits;
pub mod literals;
pub mod names;
pub mod ranges;
