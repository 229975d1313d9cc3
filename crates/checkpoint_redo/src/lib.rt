//! Work that can be taken back: an engine with a copy of the state before the first tentative bucket.
#![tactic(auto)]

pub mod keeper;
pub mod laws;
pub mod redoing;
