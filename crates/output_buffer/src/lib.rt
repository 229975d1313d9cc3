//! The numbered stable output that a sender keeps, until every reader acknowledged it.
#![tactic(auto)]

pub mod buffer;
