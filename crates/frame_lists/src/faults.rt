//! Why bytes are no list of frames.
/// Why bytes were not read as frames of one sort.
#[derive(Clone, Copy, PartialEq, Eq, Debug)]
pub enum ListFault {
    NoMemory,
    /// Behind so many frames stands none of the sort.
    NoFrame(u64),
}
