//! The two sides of a join.
ghost use Rattle.std.specs.Prelude.{◌≡◌};
ghost use Rattle.ops_join.specs.Sides.{port_of, other_end, column_of};

/// A side of a join.
#[derive(Clone, Copy, PartialEq, Eq)]
pub enum End {
    Left,
    Right,
}

impl End {
    /// The port by which its tuples come.
    pub fn port(self) -> u64
        ensures { result ≡ port_of self }
    {
        match self {
            End::Left => 0,
            End::Right => 1,
        }
    }

    pub fn other(self) -> End
        ensures { result ≡ other_end self }
    {
        match self {
            End::Left => End::Right,
            End::Right => End::Left,
        }
    }

    /// Its column of a pair of key columns.
    pub fn column(self, pair: &(u64, u64)) -> u64
        ensures { result ≡ column_of self pair.now }
    {
        match self {
            End::Left => pair.0,
            End::Right => pair.1,
        }
    }
}
