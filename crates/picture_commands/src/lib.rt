//! The picture of a script's run, and of a journal's.
#![tactic(auto)]

mod answering;
pub mod form;
mod replaying;

pub use answering::answer;
pub use replaying::answer_replay;
