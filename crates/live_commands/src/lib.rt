//! What the commands that run a script by several threads come to.
#![tactic(auto)]

mod answering;
pub mod beside;
pub mod outcome;
mod watching;

pub use answering::answer;
