//! The table of kinds: the byte of each, and its fields, from which frames are both written and read.
ghost use Rattle.std.specs.Prelude.{◌≡◌, ◌≤◌, ◌↔◌, IsTrue, length};
ghost use Rattle.stream_codec.specs.Frames as frames;
ghost use Rattle.stream_codec.specs.Kinds as spec;

/// The bytes of a column's value.
pub const VALUE_WIDTH: usize = 8;

/// The most columns of a tuple that has a frame.
pub const MOST_COLUMNS: usize = 8;

/// The most fields of a kind.
pub const MOST_FIELDS: usize = 3;

/// The kinds of frames.
#[derive(Clone, Copy, PartialEq, Eq)]
pub enum Kind {
    Stable,
    Tentative,
    Boundary,
    Undo,
    RecDone,
    Head,
    Tail,
    Passed,
    Phase,
    Deliver,
    Tick,
    Mill,
    Cut,
    Heal,
    Crash,
    Restart,
    Emit,
    Release,
}

/// What a field of a frame holds: each is a number of one to eight bytes, the highest first.
#[derive(Clone, Copy, PartialEq, Eq)]
pub enum Field {
    /// A number of a tuple, an envelope, a phase or an incarnation, or a count.
    Number,
    /// The time of a tuple, below 2^62.
    Time,
    /// A bound, a time of a source or a clock, up to 2^62.
    Clock,
    /// An actor's number, up to 95.
    Actor,
    /// A client's number, up to 15.
    Client,
    /// How many buckets were milled, from 1 to 16.
    Buckets,
}

impl Field {
    /// How many bytes it takes.
    pub fn width(self) -> usize
        ensures { result ≡ spec.width self }
    {
        match self {
            Field::Number | Field::Time | Field::Clock => 8,
            Field::Actor | Field::Client => 2,
            Field::Buckets => 1,
        }
    }

    /// Whether it may hold that number.
    pub fn holds(self, number: u64) -> bool
        ensures { result ≡ spec.holds self number }
    {
        match self {
            Field::Number => true,
            Field::Time => number < 1 << 62,
            Field::Clock => number <= 1 << 62,
            Field::Actor => number <= 95,
            Field::Client => number <= 15,
            Field::Buckets => 1 <= number && number <= 16,
        }
    }
}

/// How many bytes the fields take together.
fn widths(fields: &[Field]) -> usize
    requires { length fields.now ≤ MOST_FIELDS }
    ensures { result ≡ frames.widths fields.now }
{
    let mut total = 0;
    for i in 0..fields.len() {
        total += fields[i].width();
    }
    total
}

impl Kind {
    /// The byte that names it.
    pub fn byte(self) -> u8
        ensures { result ≡ spec.byte_of self }
    {
        match self {
            Kind::Stable => 1,
            Kind::Tentative => 2,
            Kind::Boundary => 3,
            Kind::Undo => 4,
            Kind::RecDone => 5,
            Kind::Head => 6,
            Kind::Tail => 7,
            Kind::Passed => 8,
            Kind::Phase => 16,
            Kind::Deliver => 17,
            Kind::Tick => 18,
            Kind::Mill => 19,
            Kind::Cut => 20,
            Kind::Heal => 21,
            Kind::Crash => 22,
            Kind::Restart => 23,
            Kind::Emit => 24,
            Kind::Release => 25,
        }
    }

    /// The kind that a byte names.
    pub fn of(byte: u8) -> Option<Kind>
        ensures { result ≡ spec.kind_of byte }
    {
        Some(match byte {
            1 => Kind::Stable,
            2 => Kind::Tentative,
            3 => Kind::Boundary,
            4 => Kind::Undo,
            5 => Kind::RecDone,
            6 => Kind::Head,
            7 => Kind::Tail,
            8 => Kind::Passed,
            16 => Kind::Phase,
            17 => Kind::Deliver,
            18 => Kind::Tick,
            19 => Kind::Mill,
            20 => Kind::Cut,
            21 => Kind::Heal,
            22 => Kind::Crash,
            23 => Kind::Restart,
            24 => Kind::Emit,
            25 => Kind::Release,
            _ => return None,
        })
    }

    /// Its fields in order.
    pub fn fields(self) -> &'static [Field]
        ensures { result.now ≡ spec.fields self }
    {
        match self {
            Kind::Stable => &[Field::Number, Field::Time],
            Kind::Tentative => &[Field::Time],
            Kind::Boundary => &[Field::Clock, Field::Number],
            Kind::Undo | Kind::Phase | Kind::Deliver => &[Field::Number],
            Kind::RecDone => &[],
            Kind::Head => &[Field::Client],
            Kind::Tail => &[Field::Number, Field::Clock, Field::Number],
            Kind::Passed => &[Field::Clock],
            Kind::Tick | Kind::Emit | Kind::Release => &[Field::Actor, Field::Clock],
            Kind::Mill => &[Field::Actor, Field::Buckets],
            Kind::Cut | Kind::Heal => &[Field::Actor, Field::Actor],
            Kind::Crash => &[Field::Actor],
            Kind::Restart => &[Field::Actor, Field::Number],
        }
    }

    /// Whether a count of columns and the values of a tuple stand behind its fields.
    pub fn has_columns(self) -> bool
        ensures { result ≡ spec.has_columns self }
    {
        match self {
            Kind::Stable | Kind::Tentative => true,
            _ => false,
        }
    }

    /// How many bytes its fields take.
    pub fn fields_length(self) -> usize
        ensures value { result ≡ frames.widths (spec.fields self) }
        ensures most { result ≤ 24 }
    {
        widths(self.fields())
    }

    /// How many bytes of a frame stand behind its length, but for a tuple's values.
    pub fn fixed_length(self) -> usize
        ensures value { result ≡ frames.fixed_length self }
        ensures most { result ≤ 25 }
    {
        self.fields_length() + if self.has_columns() { 1 } else { 0 }
    }

    /// Whether a frame may have this length.
    pub fn may_have_length(self, length: usize) -> bool
        ensures { result ≡ frames.may_have_length self length }
    {
        let fixed = self.fixed_length();
        if !self.has_columns() {
            return length == fixed;
        }
        fixed + VALUE_WIDTH <= length
            && length <= fixed + MOST_COLUMNS * VALUE_WIDTH
            && (length - fixed) % VALUE_WIDTH == 0
    }
}
