//! Which replica of a stream a reader reads.
#![tactic(auto)]

pub mod choice;
