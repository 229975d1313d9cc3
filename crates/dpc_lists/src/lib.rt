//! Lists as code keeps them and as contracts see them, exact copies and comparisons, and a counter that
//! takes no bytes.
#![tactic(auto)]

pub mod exact;
pub mod faults;
pub mod inlined;
pub mod lists;
pub mod shared;
pub mod steps;
#[cfg(test)]
mod tests;
pub mod vals;
