//! The snapshot that a node saved last, on a disk: whatever crash comes, one of the last two is read again.
#![tactic(auto)]

pub mod point;
