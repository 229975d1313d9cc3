//! What `audit` comes to: the verdict on a recorded stream behind its script.
#![tactic(auto)]

mod judging;
pub mod laws;
mod verdicts;

pub use judging::audit_text;
