//! The limits of a script.

/// The most buckets of a script.
pub const MOST_BUCKETS: u64 = 10_000;

/// The most sources of a script.
pub const MOST_SOURCES: usize = 16;

/// The most entries of all logs.
pub const MOST_ENTRIES: u64 = 200_000;

/// The most fragments of a script.
pub const MOST_FRAGMENTS: usize = 16;

/// The most operators of a fragment.
pub const MOST_OPERATORS: usize = 16;

/// The most columns of a stream.
pub const MOST_COLUMNS: u64 = 8;

/// The most words of an expression.
pub const MOST_WORDS: u64 = 64;

/// The most windows of a tuple.
pub const MOST_WINDOWS: u128 = 64;

/// The most clients of a script.
pub const MOST_CLIENTS: usize = 16;

/// The most phases of a script.
pub const MOST_PHASES: usize = 2000;
