//! The one-thread schedule of a script.
#![tactic(auto)]

mod deliveries;
mod events;
pub mod faults;
pub mod lock;
pub mod phase;
mod telling;
