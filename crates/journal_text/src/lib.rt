//! The text of a journal, both ways.
#![tactic(auto)]

mod actors;
mod entries;
pub mod faults;
pub mod laws;
mod lines;
mod printing;
mod reading;
pub mod sorts;
#[cfg(test)]
mod tests;

pub use printing::print_journal;
pub use reading::read_journal;
