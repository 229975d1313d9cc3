//! A node's snapshot as what is saved: its bytes are counted first, and then given piece by piece.
#![tactic(auto)]

mod counting;
pub mod payload;
mod writing;
