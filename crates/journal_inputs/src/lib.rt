//! Inputs of a script and a journal behind it, taken apart.
#![tactic(auto)]

pub mod faults;
mod framed;
pub mod laws;
mod reading;
mod upgrading;

pub use framed::read_framed;
pub use reading::{read_both, script_in};
pub use upgrading::upgrade_text;
