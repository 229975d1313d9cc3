//! What a run by several threads comes to.

/// What is to be written.
#[derive(Drop)]
pub enum Outcome {
    /// The journal, and behind it the report.
    Text(Vec<u8>),
    /// These, and that a client is not settled after all quiet phases.
    Open(Vec<u8>),
    /// The journal without its end, whose last entry is the event that would pass a limit, and the line that says so.
    TooLong { entries: Vec<u8>, line: Vec<u8> },
    /// The line that tells why the script is refused.
    Refused(Vec<u8>),
}
