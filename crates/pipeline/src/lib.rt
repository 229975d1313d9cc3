//! The data path of a node: its inputs in buckets, its operators, and its output.
#![tactic(auto)]

mod beginning;
mod closing;
mod counting;
mod inlets;
mod milling;
pub mod pipeline;
mod running;
pub mod snapshots;
