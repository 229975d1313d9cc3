//! The picture of a run as text, in lines of at most 100 columns.
#![tactic(auto)]

pub mod labels;
mod panels;
pub mod signs;
pub mod strips;
pub mod text;

pub use text::picture_text;
