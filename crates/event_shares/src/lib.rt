//! Which script a run is of, and the shares in which several threads count its events.
#![tactic(auto)]

pub mod names;
pub mod share;
