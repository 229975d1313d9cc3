//! The aggregate over windows.
#![tactic(auto)]

pub mod aggregate;
pub mod cell_map;
mod cells;
mod joining;
mod pane;
pub mod saved;
pub mod totals;
