//! A pool that hands orders to workers of their own.
#![tactic(auto)]

pub mod account;
mod closing;
pub mod job;
pub mod kind;
pub mod pool;
pub mod rule;
pub mod seat;
#[cfg(test)]
mod tests;
