//! An input of a script and something behind it, taken apart.
#![tactic(auto)]

pub mod notation;
mod openings;
mod splitting;

pub use openings::first_line;
pub use splitting::split_input;
