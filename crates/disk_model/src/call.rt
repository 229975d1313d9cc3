//! What a disk in memory keeps of its calls.
use crate::pages::Pages;
use std::snapshot::Snapshot;

/// What was asked for.
#[derive(Drop)]
pub enum Kind {
    /// So many bytes from a place on.
    Read(u64, u64),
    /// So many bytes from a place on.
    Write(u64, u64),
    /// What could be read then; it is known to contracts alone, and takes no memory.
    Sync(Snapshot<Pages>),
}

/// A call, and whether it was done: it failed where it was not.
#[derive(Drop)]
pub struct Call {
    pub kind: Kind,
    pub done: bool,
}
