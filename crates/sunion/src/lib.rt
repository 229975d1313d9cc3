//! The inputs of a node: an inlet for each port, and the buckets of time that their tuples lie in.
#![tactic(auto)]

mod buckets;
mod clocks;
pub mod laws;
mod ports;
mod spans;
pub mod sunion;
