//! How a journal or a stream is told.

/// How what stands behind a script is told.
#[derive(Clone, Copy, PartialEq, Eq, Debug)]
pub enum Notation {
    /// In lines of words.
    Lines,
    /// In frames of bytes.
    Frames,
}
