//! One stream of two clients, made while a run goes on.
#![tactic(auto)]

pub mod pairing;
