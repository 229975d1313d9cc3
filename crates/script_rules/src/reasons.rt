//! Why a line is refused.
ghost use Rattle.std.specs.Prelude.{◌≡◌};
ghost use Rattle.script_rules.specs.ReasonTable.{number_of};

/// The reasons to refuse a line, the least one first.
#[derive(Clone, Copy, PartialEq, Eq, Debug)]
pub enum Reason {
    /// A byte is neither printable ASCII nor a line feed.
    ForeignByte,
    /// The first word begins no line, or a word can't stand at its place.
    ForeignWord,
    /// There are too few or too many words, also of an expression.
    WrongCount,
    /// No number stands where one must.
    NoNumber,
    /// A number is out of its range.
    OutOfRange,
    /// The line stands in the wrong part.
    OutOfPart,
    /// A name is taken, or a stream stands twice in one fragment.
    NameTaken,
    /// A source, an operator's input, an actor or a node is unknown, or no link joins two actors.
    Unknown,
    /// A log's time is below the one before, or not below the end.
    OutOfTime,
    /// A column is not there, a log has another number of values than its source has columns, a union's inputs differ in
    /// their columns, or a result has more than 8.
    NoSuchColumn,
    /// A fragment or a client reads what was not declared before it.
    ReadsAhead,
    /// A part is missing at `begin`; at the end of input `begin` is, or a tick behind directives.
    PartMissing,
    /// A clock is below the one before, a node that crashes is down, or one that restarts is up.
    AgainstState,
    /// There is one more than may be, or an expression, an operator's windows or the text are too long.
    PastLimit,
}

impl Reason {
    /// Its number, by which a refusal names it: 1 to 14 in the order of the variants.
    pub fn number(self) -> u64
        ensures { result ≡ number_of self }
    {
        match self {
            Reason::ForeignByte => 1,
            Reason::ForeignWord => 2,
            Reason::WrongCount => 3,
            Reason::NoNumber => 4,
            Reason::OutOfRange => 5,
            Reason::OutOfPart => 6,
            Reason::NameTaken => 7,
            Reason::Unknown => 8,
            Reason::OutOfTime => 9,
            Reason::NoSuchColumn => 10,
            Reason::ReadsAhead => 11,
            Reason::PartMissing => 12,
            Reason::AgainstState => 13,
            Reason::PastLimit => 14,
        }
    }
}

/// The first fault of a text or a script: its line in the text, or in the canonical one, and the least reason there.
#[derive(Clone, Copy, PartialEq, Eq, Debug)]
pub struct PlanFault {
    pub line: u64,
    pub reason: Reason,
}
