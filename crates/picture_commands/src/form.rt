//! What a picture is made of.

/// How the picture of a run is written.
#[derive(Clone, Copy, PartialEq, Eq, Debug)]
pub enum PictureForm {
    /// As SVG, for a browser.
    Svg,
    /// As text of at most 100 columns, for a terminal.
    Text,
}
