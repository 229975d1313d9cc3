//! The words of a script's lines, by code.
#![tactic(auto)]

pub mod expressions;
pub mod keywords;
pub mod lines;
pub mod operands;
pub mod places;
mod scans;
mod seen;
pub mod spelling;
pub mod symbols;
pub mod words;
