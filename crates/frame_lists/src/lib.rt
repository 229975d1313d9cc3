//! Journals and streams as frames that stand one behind another, both ways.
#![tactic(auto)]

pub mod faults;
pub mod laws;
pub mod reading;
pub mod sorts;
pub mod writing;
