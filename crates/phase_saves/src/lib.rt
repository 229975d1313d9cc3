//! What nodes save at the ends of a run's phases, each to a disk of its own.
#![tactic(auto)]

pub mod kept;
pub mod node;
pub mod watch;
