//! The neighbours of a node: whom it reads, who may reconcile, and who can hand out a snapshot.
#![tactic(auto)]

mod asking;
pub mod laws;
pub mod links;
mod peers;
mod ports;
mod senders;
