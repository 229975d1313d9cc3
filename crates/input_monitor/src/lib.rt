//! What a reader knows of the replicas that send its stream.
#![tactic(auto)]

pub mod monitor;
pub mod ranks;
mod watch;
