//! One source: it sends what it logs as it is emitted, and answers its readers.
#![tactic(auto)]

mod giving;
pub mod laws;
mod log;
mod remade;
pub mod source;
