//! The picture of a run as SVG.
#![tactic(auto)]

mod axis;
mod lanes;
mod layout;
mod lines;
mod marks;
mod shapes;
mod svg;
pub mod values;

pub use svg::picture_svg;
