//! An order, done on its own engine: nothing of the engine is copied.
ghost use Rattle.std.specs.Prelude.{◌≡◌, ◌+◌, ◌≤◌, length, IfOk, OnOk};
ghost use Rattle.mill_work.specs.Milling.{IsOrder, IsMilled};

use crate::order::Order;
use checkpoint_redo::redoing::redo;
use dpc_lists::faults::NoMemory;
use dpc_lists::lists::Listed;
use dpc_lists::steps::Steps;
use dpc_model::engines::Engine;
use dpc_model::tuples::{Tagged, Tuples};
use std::alloc::Global;
use std::marker::Model;
use std::snapshot::Snapshot;
use std::sync::ledger::Ledger;

/// An order whose own engine went on behind its buckets, with what they add to the output. Of the engine
/// before them only contracts know. It can't be made but by `mill_in_place`. Contracts see a `MilledValue`.
#[derive(Drop)]
pub struct Done<M: Engine> {
    node: u64,
    inc: u64,
    cursor: u64,
    /// What the engine was at the first bucket.
    before: Snapshot<M>,
    buckets: Listed<Listed<Tagged>>,
    after: M,
    outputs: Tuples,
}

impl<M: Engine> Model for Done<M> {
    ghost use Rattle.mill_work.specs.Milling.{MilledValue, IsMilled};

    ghost Value = { MilledValue M };

    ghost view = { λ d. record {
      order = record { node = d.node; inc = d.inc; cursor = d.cursor; before = d.before.value; buckets = d.buckets };
      after = d.after;
      outputs = d.outputs;
    } };

    ghost invariant = { λ d. IsMilled M.next M.width M.is_spent M.operators M.after
        (record { node = d.node; inc = d.inc; cursor = d.cursor; before = d.before.value; buckets = d.buckets })
        d.after d.outputs };
}

impl<M: Engine + Drop> Done<M> {
    /// The node as an actor. It takes no memory.
    pub fn node(&self) -> u64
        ensures { result ≡ self.now.order.node }
    {
        self.node
    }

    /// The node's incarnation. It takes no memory.
    pub fn inc(&self) -> u64
        ensures { result ≡ self.now.order.inc }
    {
        self.inc
    }

    /// The number of the first bucket. It takes no memory.
    pub fn cursor(&self) -> u64
        ensures { result ≡ self.now.order.cursor }
    {
        self.cursor
    }

    /// How many buckets there are: one at least. It takes no memory.
    pub fn count(&self) -> u64
        ensures many { result ≡ length self.now.order.buckets }
        ensures some { 1 ≤ result }
    {
        self.buckets.len() as u64
    }

    /// The engine behind the order, and what its buckets add to the output. It takes no memory.
    pub fn into_parts(self) -> (M, Tuples)
        ensures after { result.0 ≡ self.after }
        ensures outputs { result.1 ≡ self.outputs }
        ensures milled { IsMilled M.next M.width M.is_spent M.operators M.after self.order result.0 result.1 }
    {
        let Done {
            node: _,
            inc: _,
            cursor: _,
            before: _,
            buckets: _,
            after,
            outputs,
        } = self;
        (after, outputs)
    }
}

/// Does the work of an order on its own engine, and counts a step for each bucket. No engine is copied.
pub fn mill_in_place<M: Engine + Drop, L: Ledger>(
    alloc: Global,
    order: Order<M>,
    steps: &mut Steps<L>,
) -> Result<Done<M>, NoMemory>
    requires { IsOrder M.next M.width M.is_spent order }
    ensures order { IfOk result (λ d. d.order ≡ order) }
    ensures steps { OnOk result (steps.new ≡ steps.old + length order.buckets) }
{
    let Order {
        node,
        inc,
        cursor,
        before: mut engine,
        buckets,
    } = order;
    let before = Snapshot::of(&engine);
    let outputs = redo(alloc, &mut engine, buckets.as_slice(), cursor, steps)?;
    Ok(Done {
        node,
        inc,
        cursor,
        before,
        buckets,
        after: engine,
        outputs,
    })
}
