//! The run of a script by several threads, while others read what its clients take.
#![tactic(auto)]

mod crew;
mod feed;
pub mod live;
mod telling;
