//! Why bytes were not read.
/// Why bytes were not read as a snapshot.
#[derive(Clone, Copy, PartialEq, Eq, Debug)]
pub enum ReadFault {
    NoMemory,
    /// The bytes are no snapshot of the fragment.
    NoReading,
}
