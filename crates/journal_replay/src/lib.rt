//! The run of a journal, where that is a complete live one of its script.
#![tactic(auto)]

pub mod faults;
mod replaying;

pub use replaying::{replay, replay_watched};
