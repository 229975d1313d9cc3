//! What a picture of a run shows, as plain data, and what each event of a run makes of it.
#![tactic(auto)]

pub mod columns;
pub mod laws;
