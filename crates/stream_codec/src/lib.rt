//! Items, entries of journals, and what stands around a client's items, as frames of bytes, both ways.
#![tactic(auto)]

pub mod decoding;
pub mod encoding;
pub mod faults;
pub mod frames;
pub mod kinds;
pub mod laws;
#[cfg(test)]
mod tests;
