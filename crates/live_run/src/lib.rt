//! A run that keeps to its script: each event is one that may come next.
#![tactic(auto)]

pub mod course;
pub mod goals;
pub mod run;
pub mod timetable;
