//! The run of a script in which nodes save their snapshots, each to a disk of its own.
#![tactic(auto)]

pub mod faults;
mod points;
pub mod runs;
pub mod saved;
mod telling;
