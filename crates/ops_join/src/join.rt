//! The join of two streams.
ghost use Rattle.std.specs.Prelude.{◌≡◌, ◌+◌, ◌*◌, ◌^◌, ◌<◌, ◌≤◌, ◌↔◌, ◌++◌, List, Some, true, false, All, IfOk, OnOk, OnErr, is_err, IsTrue};
ghost use Rattle.dpc_model.specs.Engines.{lone_operator, Accepts, FitsBucket};
ghost use Rattle.dpc_model.specs.declared.tuples.Tuple.{Tuple};
ghost use Rattle.dpc_model.specs.declared.tuples.Tagged.{Tagged};
ghost use Rattle.dpc_model.specs.declared.operators.OpKind.TheVariants as kind;
ghost use Rattle.ops_join.specs.Joins.{new_join, JoinAfter, join_added};
ghost use Rattle.ops_join.specs.RowsOut.{Takes, TakesFirst};
ghost use Rattle.ops_join.specs.Saving.{can_all_wait, resumed_join};

use crate::rows_out::{Ended, RowSink};
use crate::sides::Sides;
use dpc_lists::exact::Exact;
use dpc_lists::faults::NoMemory;
use dpc_lists::lists::Listed;
use dpc_model::engines::Engine;
use dpc_model::faults::StepFault;
use dpc_model::tuples::{Tagged, Tuple, Tuples};
use std::alloc::Global;
use std::collections::VecDeque;
use std::marker::Model;

/// Pairs the tuples of port 0, the left ones, with those of port 1. Contracts see a `JoinState`.
#[derive(Drop)]
pub struct Join {
    within: u64,
    width: u64,
    sides: Sides,
    next: u64,
    spent: bool,
}

impl Model for Join {
    ghost use Rattle.std.specs.Prelude.{◌≡◌, ◌*◌, true};
    ghost use Rattle.ops_join.specs.Joins.{JoinState};
    ghost use Rattle.ops_join.specs.Saving.{can_all_wait};

    ghost Value = { JoinState };

    ghost view = { λ j. record {
      within = j.within;
      keys = j.sides.keys;
      width = j.width;
      left = j.sides.left;
      right = j.sides.right;
      next = j.next;
      spent = j.spent;
    } };

    ghost invariant = { λ j. (can_all_wait j.within (j.next * j.width) j.sides.left ≡ true)
        × (can_all_wait j.within (j.next * j.width) j.sides.right ≡ true) };
}

impl Join {
    /// The join of tuples whose times differ by at most `within` and whose key columns, those of the
    /// left and of the right tuple, are equal in pairs, over buckets of this width, before bucket 0.
    /// It takes no memory.
    pub fn new(alloc: Global, within: u64, keys: Listed<(u64, u64)>, width: u64) -> Join
        ensures { result ≡ new_join within keys width }
    {
        Join {
            within,
            width,
            sides: Sides::new(alloc, keys),
            next: 0,
            spent: false,
        }
    }

    /// The join with these tuples on its sides in place of its own, before bucket `next`, as a saved one had
    /// them. The tuples are moved; the time is about as that of a walk over them. `next` may be any number,
    /// and `next * width` any product: what each side may hold is asked for at that begin.
    pub fn from_sides(
        alloc: Global,
        join: Join,
        next: u64,
        left: Tuples,
        right: Tuples,
    ) -> Result<Join, NoMemory>
        requires left { can_all_wait join.within (next * join.width) left ≡ true }
        requires right { can_all_wait join.within (next * join.width) right ≡ true }
        ensures { IfOk result (λ j. j ≡ resumed_join join next left right) }
    {
        let Join {
            within,
            width,
            sides,
            ..
        } = join;
        let sides = sides.with_tuples(alloc, left.into_vec(), right.into_vec())?;
        Ok(Join {
            within,
            width,
            sides,
            next,
            spent: false,
        })
    }

    /// Takes the inputs of the next bucket, as `bucket` does, and gives the rows that they add one behind
    /// another: no more of them are held than one row, and what is at most as long as what it keeps. After
    /// an error some first ones were given, and it is spent.
    pub fn bucket_into<K, R: RowSink<K>>(
        &mut self,
        alloc: Global,
        inputs: &[Tagged],
        k: u64,
        sink: &mut R,
        out: &mut K,
    ) -> Result<(), Ended>
        requires next { k ≡ self.old.next }
        requires range { k + 1 < 2 ^ 64 }
        requires accepts { FitsBucket self.old.width k inputs.now }
        ensures rows { OnOk result ((before : List Tagged) → JoinAfter self.old before k
            → Takes (R.took sink.old out.old) (R.took sink.new out.new) (join_added self.old before inputs.now k)) }
        ensures first { OnErr result ((before : List Tagged) → JoinAfter self.old before k
            → TakesFirst (R.took sink.old out.old) (R.took sink.new out.new) (join_added self.old before inputs.now k)) }
        ensures after { OnOk result ((before : List Tagged) → JoinAfter self.old before k
            → JoinAfter self.new (before ++ inputs.now) (k + 1)) }
        ensures idle { OnOk result (self.new.spent ≡ false) }
        ensures next { OnOk result (self.new.next ≡ k + 1) }
        ensures spent { OnErr result (self.new.spent ≡ true) }
        ensures within { self.new.within ≡ self.old.within }
        ensures keys { self.new.keys ≡ self.old.keys }
        ensures width { self.new.width ≡ self.old.width }
    {
        if self.spent {
            return Err(Ended);
        }
        let end = (k + 1) * self.width;
        match self
            .sides
            .advance_giving(alloc, self.within, inputs, end, sink, out)
        {
            Ok(()) => {
                self.next = k + 1;
                Ok(())
            }
            Err(Ended) => {
                self.sides.clear();
                self.spent = true;
                Err(Ended)
            }
        }
    }

    /// The left and the right tuples that it keeps, in order of time. They may wait for the next bucket.
    pub fn sides(&self) -> (&VecDeque<Tuple>, &VecDeque<Tuple>)
        ensures left { result.0.now.items ≡ self.now.left }
        ensures right { result.1.now.items ≡ self.now.right }
        ensures left_waits { can_all_wait self.now.within (self.now.next * self.now.width) self.now.left ≡ true }
        ensures right_waits { can_all_wait self.now.within (self.now.next * self.now.width) self.now.right ≡ true }
    {
        (self.sides.left(), self.sides.right())
    }

    /// The left tuples that it keeps, in order of place.
    pub fn left(&self) -> &VecDeque<Tuple>
        ensures { result.now.items ≡ self.now.left }
    {
        self.sides.left()
    }

    /// The right tuples that it keeps, in order of place.
    pub fn right(&self) -> &VecDeque<Tuple>
        ensures { result.now.items ≡ self.now.right }
    {
        self.sides.right()
    }
}

impl Engine for Join {
    ghost width = { λ j. Some j.width };

    ghost operators = { λ j. lone_operator (kind.Join j.within j.keys) 2 };

    ghost next = { λ j. j.next };

    ghost is_spent = { λ j. j.spent };

    ghost after = { λ j xs k. JoinAfter j xs k };

    fn bucket(&mut self, alloc: Global, inputs: &[Tagged], k: u64) -> Result<Tuples, StepFault>
        requires next { k ≡ self.old.next }
        requires range { k + 1 < 2 ^ 64 }
        requires accepts { Accepts (Some self.old.width) k inputs.now }
        ensures answer { IfOk result (λ out. (before : List Tagged) → JoinAfter self.old before k
            → out ≡ join_added self.old before inputs.now k) }
        ensures inside { IfOk result (λ out. All (λ (t : Tuple). (k * self.old.width ≤ t.stime) × (t.stime < (k + 1) * self.old.width)) out) }
        ensures after { OnOk result ((before : List Tagged) → JoinAfter self.old before k
            → JoinAfter self.new (before ++ inputs.now) (k + 1)) }
        ensures next { OnOk result (self.new.next ≡ k + 1) }
        ensures kept { OnErr result (self.new.next ≡ self.old.next) }
        ensures spent { result ≡ Err StepFault.Spent ↔ self.old.spent ≡ true }
        ensures stays { IsTrue self.new.spent ↔ IsTrue (is_err result) }
        ensures operators { lone_operator (kind.Join self.new.within self.new.keys) 2 ≡ lone_operator (kind.Join self.old.within self.old.keys) 2 }
        ensures width { Some self.new.width ≡ Some self.old.width }
    {
        if self.spent {
            return Err(StepFault::Spent);
        }
        let end = (k + 1) * self.width;
        match self.sides.advance(alloc, self.within, inputs, end) {
            Ok(rows) => {
                self.next = k + 1;
                Ok(Listed::from_vec(rows))
            }
            Err(NoMemory) => {
                self.sides.clear();
                self.spent = true;
                Err(StepFault::NoMemory)
            }
        }
    }

    fn copy(&self, alloc: Global) -> Result<Self, StepFault> {
        if self.spent {
            return Err(StepFault::Spent);
        }
        let Ok(sides) = self.sides.copy(alloc) else {
            return Err(StepFault::NoMemory);
        };
        Ok(Join {
            within: self.within,
            width: self.width,
            sides,
            next: self.next,
            spent: false,
        })
    }

    fn same(&self, other: &Self) -> bool {
        self.within == other.within
            && self.width == other.width
            && self.sides.same(&other.sides)
            && self.next == other.next
            && self.spent == other.spent
    }

    fn reset(&mut self) {
        self.sides.clear();
        self.next = 0;
        self.spent = false;
    }
}
