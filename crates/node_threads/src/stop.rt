//! An event that would have passed a limit of runs.
use dpc_model::messages::Event;

/// The event that would pass a limit, and how many envelopes, and items in them, it would reach.
#[derive(Clone, Copy, PartialEq, Eq)]
pub struct Stop {
    pub event: Event,
    pub envelopes: u64,
    pub items: u64,
}
