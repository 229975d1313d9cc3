//! One stream made of two clients of a script's run.
#![tactic(auto)]

mod answering;
mod naming;

pub use answering::answer;
