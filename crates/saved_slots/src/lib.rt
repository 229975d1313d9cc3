//! What a node keeps on a disk, in two slots: whatever crash comes, one of the last two payloads is read again.
#![tactic(auto)]

pub mod fault;
mod look;
pub mod payload;
mod reads;
pub mod series;
pub mod slots;
#[cfg(test)]
mod tests;
mod writes;
