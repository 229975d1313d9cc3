//! What many threads see of the clients of a run while it goes on.
#![tactic(auto)]

pub mod ending;
pub mod opening;
pub mod seat;
pub mod telling;
pub mod watch;
pub mod watched;
