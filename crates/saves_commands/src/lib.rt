//! What the nodes of a script's run save.
#![tactic(auto)]

mod answering;
mod lines;

pub use answering::answer;
