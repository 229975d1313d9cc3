//! Reads the text of a script.
#![tactic(auto)]

pub mod faults;
mod operators;
mod reader;
mod statements;

pub use reader::read_script;
