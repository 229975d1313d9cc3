//! What each actor of a plan is, and who is linked with whom, told once.
#![tactic(auto)]

pub mod roster;
