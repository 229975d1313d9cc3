//! The run of a script by several threads: the value behind their lock, their shares of its events, and their work.
#![tactic(auto)]

pub mod faults;
pub mod hall;
pub mod hand;
pub mod live;
mod looking;
pub mod milling;
pub mod pooled;
pub mod pooling;
pub mod post;
pub mod seats;
pub mod signals;
pub mod stop;
pub mod turn;
pub mod worker;
