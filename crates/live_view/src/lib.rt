//! A client's stable stream, read by many threads while one thread tells what is new.
#![tactic(auto)]

pub mod laws;
pub mod live;
pub mod looker;
pub mod names;
pub mod receipt;
mod rule;
mod shown;
mod sight;
pub mod teller;
#[cfg(test)]
mod tests;
