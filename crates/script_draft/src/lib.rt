//! A script under way: what its lines say so far, and the reasons that stand against a further one.
#![tactic(auto)]

pub mod draft;
pub mod ends;
pub mod fragments;
pub mod limits;
pub mod name_list;
pub mod named;
pub mod shape;
