//! Failed calls, and their count.
ghost use Rattle.std.specs.Prelude.{◌≡◌, ℕ};
ghost use Rattle.dpc_edge.specs.Faults.{Rises, one_more};

use std::marker::Model;

/// A call that moved no byte, while the count of faults of its object rose.
#[derive(Clone, Copy, PartialEq, Eq, Debug)]
pub struct Failed;

/// How many calls of an object failed. It stays once it is the greatest `u64`. Contracts see the number.
#[derive(Drop)]
pub(crate) struct FaultCount {
    count: u64,
}

impl Model for FaultCount {
    ghost Value = { ℕ };

    ghost view = { λ f. f.count };
}

impl FaultCount {
    /// No call failed so far.
    pub(crate) fn new() -> FaultCount
        ensures { result ≡ 0 }
    {
        FaultCount { count: 0 }
    }

    /// One more call fails, with this answer.
    pub(crate) fn raise(&mut self) -> Failed
        ensures raised { self.new ≡ one_more self.old }
        ensures rises { Rises self.old self.new }
    {
        self.count = self.count.saturating_add(1);
        Failed
    }
}
