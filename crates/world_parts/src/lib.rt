//! All actors of a run with the links between them and every envelope, and what each event makes of them.
#![tactic(auto)]

pub mod envelopes;
pub mod faults;
pub mod parts;
pub mod slots;
