//! A client's stream as somebody recorded it, in lines or in frames.
#![tactic(auto)]

pub mod faults;
mod items;
mod openings;
mod pieces;
mod reading;

pub use reading::{read_stream, read_stream_frames};
