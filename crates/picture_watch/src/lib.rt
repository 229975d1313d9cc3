//! The columns of a picture, made while a run goes on.
#![tactic(auto)]

mod clients;
mod grants;
mod links;
mod losses;
mod nodes;
mod sources;
pub mod tallies;
pub mod watch;
