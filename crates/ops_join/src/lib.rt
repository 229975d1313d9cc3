//! The join.
#![tactic(auto)]

mod chains;
mod ends;
pub mod join;
mod partners;
mod rows;
mod rows_given;
pub mod rows_out;
pub mod saved;
mod side;
mod sides;
