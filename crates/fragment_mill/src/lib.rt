//! The operators of a fragment as one engine.
#![tactic(auto)]

pub mod laws;
pub mod mill;
pub mod operator;
mod stage;
pub mod states;
pub mod views;
