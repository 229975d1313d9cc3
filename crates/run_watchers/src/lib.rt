//! What looks at a run after each of its events.
#![tactic(auto)]

pub mod watchers;
