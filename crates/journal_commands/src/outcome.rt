//! What a command on a script and what stands behind it comes to.
use input_parts::notation::Notation;

/// What is done with a script and what stands behind it.
#[derive(Clone, Copy, PartialEq, Eq, Debug)]
pub enum JournalCommand {
    /// Writes the report of the journal's run.
    Replay(Notation),
    /// Writes both in their newest form.
    Upgrade,
    /// Writes the verdict on the recorded stream.
    Audit(Notation),
}

/// What is to be written.
#[derive(Drop)]
pub enum Outcome {
    /// This text.
    Text(Vec<u8>),
    /// This report, and that a client is not settled after all quiet phases.
    Open(Vec<u8>),
    /// The line on a run that would pass a limit.
    TooLong(Vec<u8>),
    /// The line that tells why the input is refused.
    Refused(Vec<u8>),
}
