//! The places of a line.

/// What may stand at a place.
#[derive(Clone, Copy, PartialEq, Eq)]
pub enum Sort {
    Name,
    /// The name of a source, a client or a node.
    Actor,
    /// A number of any size.
    Natural,
    /// A number from the first to the second one.
    Range(u64, u64),
    /// A number from the first to the second one, and a multiple of the third.
    Multiple(u64, u64, u64),
    Value,
    /// A word of an expression.
    Expression,
    /// The number of the expressions behind it, 1 to 8.
    Count,
    /// `-` or a column.
    Group,
    /// A word that begins an aggregate.
    Aggregate,
    Column,
    /// A key column of the left, behind which one of the right must stand.
    LeftKey,
    /// Any word, since what stands before leaves it without a rule.
    Anything,
}

/// A place, and whether a word must stand there.
#[derive(Clone, Copy, PartialEq, Eq)]
pub struct Place {
    pub sort: Sort,
    pub needed: bool,
}
