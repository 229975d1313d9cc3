//! Where a program's bytes come from and go to. Every call either moves the bytes that it states, or
//! fails and moves none; and it fails only where the object's own count of faults rises, which no
//! code outside the object can bring about. No call of this crate takes memory.
#![tactic(auto)]

pub mod counted;
pub mod faults;
pub mod gate;
pub mod memory;
pub mod sink;
pub mod source;
#[cfg(test)]
mod tests;
pub mod whole;
