//! What a script's value must keep: the ranges of its names, numbers and counts, and the reasons against what each line of
//! its canonical text says. No function takes memory.
#![tactic(auto)]

mod clients;
mod directives;
mod first_fault;
mod fragments;
mod headers;
mod kinds;
mod names;
mod operator_ranges;
mod operators;
mod ranges;
mod sources;

pub use first_fault::check;
pub use ranges::is_in_range;
