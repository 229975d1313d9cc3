//! The aggregate over windows.
ghost use Rattle.std.specs.Prelude.{◌≡◌, ◌+◌, ◌*◌, ◌^◌, ◌<◌, ◌≤◌, ◌↔◌, ◌++◌, List, Some, true, false, All, IfOk, OnOk, OnErr, is_err, IsTrue};
ghost use Rattle.dpc_model.specs.Engines.{Accepts};
ghost use Rattle.dpc_model.specs.declared.tuples.Tagged.{Tagged};
ghost use Rattle.dpc_model.specs.declared.tuples.Tuple.{Tuple};
ghost use Rattle.ops_window.specs.Windows.{new_aggregate, aggregate_operators, aggregate_added, AggregateAfter};
ghost use Rattle.ops_window.specs.Saving.{all_saved, can_all_wait, resumed_aggregate};

use crate::cell_map::{Cells, are_same};
use crate::cells::Shape;
use crate::saved::Cell;
use dpc_lists::exact::Exact;
use dpc_lists::faults::NoMemory;
use dpc_lists::lists::Listed;
use dpc_model::engines::Engine;
use dpc_model::faults::StepFault;
use dpc_model::operators::Agg;
use dpc_model::tuples::{Tagged, Tuples};
use std::alloc::Global;
use std::marker::Model;

/// Gives, for each window that ends and each group in it, a row of totals over the tuples of port 0.
/// Contracts see an `AggregateState`.
#[derive(Drop)]
pub struct Aggregate {
    shape: Shape,
    width: u64,
    cells: Cells,
    next: u64,
    spent: bool,
    ghost sized: { 0 < shape.size },
    ghost stepped: { 0 < shape.step },
}

impl Model for Aggregate {
    ghost use Rattle.std.specs.Prelude.{◌≡◌, ◌*◌, true, false};
    ghost use Rattle.ops_window.specs.Windows.{AggregateState};
    ghost use Rattle.ops_window.specs.Saving.{can_all_wait, all_saved};

    ghost Value = { AggregateState };

    ghost view = { λ a. record {
      size = a.shape.size;
      step = a.shape.step;
      group = a.shape.group;
      aggs = a.shape.aggs;
      width = a.width;
      cells = a.cells;
      next = a.next;
      spent = a.spent;
    } };

    ghost invariant = { λ a. a.spent ≡ false
        → can_all_wait a.shape.size a.shape.step a.shape.group a.shape.aggs (a.next * a.width) (all_saved a.cells) ≡ true };
}

impl Aggregate {
    /// The aggregates `aggs` over windows of `size`, one every `step`, for each value of the column
    /// `group` where there is one, over buckets of this width, before bucket 0. It takes no memory.
    pub fn new(
        alloc: Global,
        size: u64,
        step: u64,
        group: Option<u64>,
        aggs: Listed<Agg>,
        width: u64,
    ) -> Aggregate
        requires size { 0 < size }
        requires step { 0 < step }
        ensures { result ≡ new_aggregate size step group aggs width }
    {
        let shape = Shape {
            size,
            step,
            group,
            aggs,
        };
        Aggregate {
            shape,
            width,
            cells: Cells::new(alloc),
            next: 0,
            spent: false,
        }
    }

    /// The aggregate with these cells in place of its own, before bucket `next`, as a saved one had them. The
    /// time is as that of putting each into an ordered map. `next` may be any number, and `next * width` any
    /// product: what the aggregate may hold is asked for at that begin.
    pub fn from_cells(
        alloc: Global,
        aggregate: Aggregate,
        next: u64,
        cells: &[Cell],
    ) -> Result<Aggregate, NoMemory>
        requires { can_all_wait aggregate.size aggregate.step aggregate.group aggregate.aggs
            (next * aggregate.width) cells.now ≡ true }
        ensures { IfOk result (λ a. a ≡ resumed_aggregate aggregate next cells.now) }
    {
        let Aggregate { shape, width, .. } = aggregate;
        let cells = Cells::from_saved(alloc, shape.aggs.as_slice(), cells)?;
        Ok(Aggregate {
            shape,
            width,
            cells,
            next,
            spent: false,
        })
    }

    /// The cells that open windows need, in order of begin and group. It takes no memory.
    pub fn cells(&self) -> &Cells
        ensures { result.now ≡ self.now.cells }
    {
        &self.cells
    }

    /// The same cells, of which is known that they may wait for the next bucket, unless it is spent.
    pub fn held_cells(&self) -> &Cells
        ensures cells { result.now ≡ self.now.cells }
        ensures wait { self.now.spent ≡ false → can_all_wait self.now.size self.now.step self.now.group self.now.aggs
            (self.now.next * self.now.width) (all_saved self.now.cells) ≡ true }
    {
        &self.cells
    }
}

impl Engine for Aggregate {
    ghost width = { λ a. Some a.width };

    ghost operators = { λ a. aggregate_operators a };

    ghost next = { λ a. a.next };

    ghost is_spent = { λ a. a.spent };

    ghost after = { λ a xs k. AggregateAfter a xs k };

    fn bucket(&mut self, alloc: Global, inputs: &[Tagged], k: u64) -> Result<Tuples, StepFault>
        requires next { k ≡ self.old.next }
        requires range { k + 1 < 2 ^ 64 }
        requires accepts { Accepts (Some self.old.width) k inputs.now }
        ensures answer { IfOk result (λ out. (before : List Tagged) → AggregateAfter self.old before k
            → out ≡ aggregate_added self.old before inputs.now k) }
        ensures inside { IfOk result (λ out. All (λ (t : Tuple). (k * self.old.width ≤ t.stime) × (t.stime < (k + 1) * self.old.width)) out) }
        ensures after { OnOk result ((before : List Tagged) → AggregateAfter self.old before k
            → AggregateAfter self.new (before ++ inputs.now) (k + 1)) }
        ensures next { OnOk result (self.new.next ≡ k + 1) }
        ensures kept { OnErr result (self.new.next ≡ self.old.next) }
        ensures spent { result ≡ Err StepFault.Spent ↔ self.old.spent ≡ true }
        ensures stays { IsTrue self.new.spent ↔ IsTrue (is_err result) }
        ensures operators { aggregate_operators self.new ≡ aggregate_operators self.old }
        ensures width { Some self.new.width ≡ Some self.old.width }
    {
        if self.spent {
            return Err(StepFault::Spent);
        }
        let begin = k * self.width;
        let end = (k + 1) * self.width;
        match self
            .shape
            .take_bucket(alloc, &mut self.cells, inputs, begin, end)
        {
            Ok(rows) => {
                self.next = k + 1;
                Ok(rows)
            }
            Err(NoMemory) => {
                self.spent = true;
                Err(StepFault::NoMemory)
            }
        }
    }

    fn copy(&self, alloc: Global) -> Result<Self, StepFault> {
        if self.spent {
            return Err(StepFault::Spent);
        }
        let shape = self.shape.copy(alloc)?;
        let cells = self.cells.share()?;
        Ok(Aggregate {
            shape,
            width: self.width,
            cells,
            next: self.next,
            spent: false,
        })
    }

    fn same(&self, other: &Self) -> bool {
        self.shape.same(&other.shape)
            && self.width == other.width
            && are_same(&self.cells, &other.cells)
            && self.next == other.next
            && self.spent == other.spent
    }

    fn reset(&mut self) {
        self.cells.clear();
        self.next = 0;
        self.spent = false;
    }
}
