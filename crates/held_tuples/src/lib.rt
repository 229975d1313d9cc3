//! Stable tuples that are held as parts of the shared lists in which they came.
#![tactic(auto)]

pub mod held;
mod run;
