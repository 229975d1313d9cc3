//! What a line is of, by its first word.

/// The kinds of lines. Those of the header are numbered from 0: version, width, delay, end, and in version 3 passing.
#[derive(Clone, Copy, PartialEq, Eq)]
pub enum Keyword {
    Header(u64),
    Source,
    Log,
    Fragment,
    Patience,
    Filter,
    Map,
    Union,
    Join,
    Aggregate,
    Client,
    Begin,
    Emit,
    Release,
    Cut,
    Heal,
    Lose,
    Repeat,
    Crash,
    Restart,
    Tick,
    Settle,
}
