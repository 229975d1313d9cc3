//! One client: what it takes of its stream, and what it tells the stream's senders.
#![tactic(auto)]

pub mod client;
