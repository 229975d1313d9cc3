//! Who sends a stream, who reads it, and who are the replicas of a fragment: lists of actor numbers.
#![tactic(auto)]

pub mod lists;
