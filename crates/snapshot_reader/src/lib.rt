//! Snapshots that were saved as bytes, read again.
#![tactic(auto)]

mod bytes;
pub mod faults;
mod forms;
mod operators;
mod plain;
pub mod snapshot;
