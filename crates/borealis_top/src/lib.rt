//! The commands of the program, over any source and any sinks.
#![tactic(auto)]

mod answer;
mod asking;
mod command;
mod live;
pub mod plain;
pub mod program;
pub mod status;
mod transfer;
pub mod whole;
