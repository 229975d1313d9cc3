//! Asking the other replicas of a fragment to reconcile, and granting.
#![tactic(auto)]

pub mod grants;
mod keys;
