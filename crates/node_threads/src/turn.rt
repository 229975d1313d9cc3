//! What comes of a try, and how one waits for the next.
use std::thread;

/// How often in a row somebody finds nothing to do before it leaves what is left to its caller.
pub const MOST_IDLE: u64 = 1_000_000;

/// So often where not all have come. Where no thread can be started they run one after another, and each
/// must leave.
pub const MOST_ALONE: u64 = 10_000;

/// The most times that one yields between two looks.
const MOST_YIELDS: u64 = 16;

/// What came of a try.
#[derive(Clone, Copy, PartialEq, Eq)]
pub enum Turn {
    Done,
    Idle,
    /// Nobody did for long what this one waits for: it leaves that to its caller.
    Left,
    /// The run is at its end, or can't go on.
    Over,
}

/// Lets others run, the longer the less there is to do.
pub fn pause(idle: u64) {
    for _ in 0..idle.clamp(1, MOST_YIELDS) {
        thread::yield_now();
    }
}
