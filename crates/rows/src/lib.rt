//! An accepted script in rows that are evaluated with no memory of their own.
#![tactic(auto)]

mod entry;
pub mod row;
