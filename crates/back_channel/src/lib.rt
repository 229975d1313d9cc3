//! One stream for a reader that has two connections: fresh tentative tuples from the one, corrections from whichever
//! has them first.
#![tactic(auto)]

mod known;
pub mod laws;
pub mod pair;
mod side;
mod stable_list;
mod telling;
#[cfg(test)]
mod tests;
