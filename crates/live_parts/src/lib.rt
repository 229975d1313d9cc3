//! The parts of a live run: what is kept of its past, so that it is told in constant time which event may come next.
#![tactic(auto)]

pub mod asking;
pub mod due;
pub mod inbox;
pub mod inboxes;
pub mod moment;
