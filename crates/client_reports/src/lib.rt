//! Reports of what the clients of a run received.
#![tactic(auto)]

pub mod json;
pub mod text;
