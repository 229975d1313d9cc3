//! What no clause says of plans, items and expressions: that copies are made, and an expression is evaluated, where there is memory.
#![tactic(auto)]

#[cfg(test)]
mod copies;
#[cfg(test)]
mod expressions;
