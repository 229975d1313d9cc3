//! Work that is taken out of a node, done apart, and put back.
#![tactic(auto)]

pub mod lending;
pub mod milling;
pub mod order;
