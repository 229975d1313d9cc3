//! What the commands on a script and what stands behind it come to.
#![tactic(auto)]

mod answering;
pub mod laws;
pub mod outcome;

pub use answering::{answer, framed_report, refusal_line, report};
