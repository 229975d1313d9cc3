//! The output of a sender: its numbered stable tuples, its tentative ones, and the session of each reader.
#![tactic(auto)]

pub mod batches;
pub mod fresh;
pub mod items;
pub mod laws;
pub mod output;
