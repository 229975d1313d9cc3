//! How saves went.

/// How a node's last save went: it never could, the snapshot needed more than a slot has, or it is kept.
#[derive(Clone, Copy, Debug, PartialEq, Eq)]
pub enum LastSave {
    Never,
    Full,
    Kept,
}

/// Why a save was stopped.
#[derive(Clone, Copy, Debug, PartialEq, Eq)]
pub enum SaveStop {
    NoMemory,
    DiskFault,
}
