//! The types of a replicated stream engine, and the definitions that the contracts of its crates cite.
#![tactic(auto)]

pub mod actors;
pub mod batches;
pub mod engines;
pub mod expressions;
pub mod faults;
pub mod laws;
pub mod messages;
pub mod operators;
pub mod plans;
pub mod scripts;
pub mod sessions;
pub mod streams;
pub mod tuples;
