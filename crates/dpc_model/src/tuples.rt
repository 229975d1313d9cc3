//! Tuples, and the items of a stream.
use dpc_lists::exact::Exact;
use dpc_lists::lists::Listed;
pub use dpc_lists::vals::Vals;
use std::alloc::{AllocError, Global};

/// Tuples in order.
pub type Tuples = Listed<Tuple>;

/// Items in order.
pub type Items = Listed<Item>;

/// A tuple: its time and its values.
#[derive(Drop)]
pub struct Tuple {
    pub stime: u64,
    pub vals: Vals,
}

/// What a stream carries.
#[derive(Drop)]
pub enum Item {
    /// The tuple of this number is final.
    Stable(u64, Tuple),
    /// A tuple that may be corrected.
    Tentative(Tuple),
    /// Tentative output goes up to this time.
    Passed(u64),
    /// No later tuple has a smaller time, and so many tuples have one.
    Boundary(u64, u64),
    /// So many stable tuples stand, and every tentative one goes.
    Undo(u64),
    /// A series of corrections ends.
    RecDone,
}

/// A tuple with the port by which it came.
#[derive(Drop)]
pub struct Tagged {
    pub port: u64,
    pub tuple: Tuple,
}

impl Tuple {
    ghost use Rattle.std.specs.Prelude.{◌≡◌};
    ghost use Rattle.dpc_model.specs.Values.{column};

    /// The value of a column, and 0 where the tuple has no such column.
    pub fn column(&self, number: u64) -> i64
        ensures { result ≡ column self.now number }
    {
        let vals = self.vals.as_slice();
        vals.get(number as usize).copied().unwrap_or(0)
    }
}

impl Exact for Tuple {
    fn copy(&self, alloc: Global) -> Result<Tuple, AllocError> {
        let vals = self.vals.copy(alloc)?;
        Ok(Tuple {
            stime: self.stime,
            vals,
        })
    }

    fn same(&self, other: &Tuple) -> bool {
        self.stime == other.stime && self.vals.same(&other.vals)
    }
}

impl Exact for Item {
    fn copy(&self, alloc: Global) -> Result<Item, AllocError> {
        Ok(match self {
            Item::Stable(number, tuple) => Item::Stable(*number, tuple.copy(alloc)?),
            Item::Tentative(tuple) => Item::Tentative(tuple.copy(alloc)?),
            Item::Passed(upto) => Item::Passed(*upto),
            Item::Boundary(bound, count) => Item::Boundary(*bound, *count),
            Item::Undo(number) => Item::Undo(*number),
            Item::RecDone => Item::RecDone,
        })
    }

    fn same(&self, other: &Item) -> bool {
        match (self, other) {
            (Item::Stable(k, t), Item::Stable(n, u)) => k == n && t.same(u),
            (Item::Tentative(t), Item::Tentative(u)) => t.same(u),
            (Item::Passed(b), Item::Passed(c)) => b == c,
            (Item::Boundary(b, m), Item::Boundary(c, n)) => b == c && m == n,
            (Item::Undo(m), Item::Undo(n)) => m == n,
            (Item::RecDone, Item::RecDone) => true,
            _ => false,
        }
    }
}

impl Exact for Tagged {
    fn copy(&self, alloc: Global) -> Result<Tagged, AllocError> {
        let tuple = self.tuple.copy(alloc)?;
        Ok(Tagged {
            port: self.port,
            tuple,
        })
    }

    fn same(&self, other: &Tagged) -> bool {
        self.port == other.port && self.tuple.same(&other.tuple)
    }
}
