//! An order, done.
ghost use Rattle.std.specs.Prelude.{◌≡◌, ◌+◌, length, IfOk, OnOk};
ghost use Rattle.mill_work.specs.Milling.{IsOrder, IsMilled};

use crate::order::Order;
use checkpoint_redo::redoing::redo;
use dpc_lists::faults::NoMemory;
use dpc_lists::steps::Steps;
use dpc_model::engines::Engine;
use dpc_model::tuples::Tuples;
use std::alloc::Global;
use std::marker::Model;
use std::sync::ledger::Ledger;

/// An order with the engine behind its buckets and what they add to the output. It can't be made but by
/// `mill`, so that both are the order's. Contracts see a `MilledValue`.
#[derive(Drop)]
pub struct Milled<M: Engine> {
    order: Order<M>,
    after: M,
    outputs: Tuples,
}

impl<M: Engine> Model for Milled<M> {
    ghost use Rattle.mill_work.specs.Milling.{MilledValue, IsMilled};

    ghost Value = { MilledValue M };

    ghost view = { λ m. record { order = m.order; after = m.after; outputs = m.outputs } };

    ghost invariant = { λ m. IsMilled M.next M.width M.is_spent M.operators M.after m.order m.after m.outputs };
}

impl<M: Engine + Drop> Milled<M> {
    /// The order. It takes no memory.
    pub fn order(&self) -> &Order<M>
        ensures { result.now ≡ self.now.order }
    {
        &self.order
    }

    /// The order, the engine behind it, and what its buckets add to the output. It takes no memory.
    pub fn into_parts(self) -> (Order<M>, M, Tuples)
        ensures order { result.0 ≡ self.order }
        ensures after { result.1 ≡ self.after }
        ensures outputs { result.2 ≡ self.outputs }
        ensures milled { IsMilled M.next M.width M.is_spent M.operators M.after result.0 result.1 result.2 }
    {
        let Milled {
            order,
            after,
            outputs,
        } = self;
        (order, after, outputs)
    }
}

/// Does the work of an order, on a copy of its engine, and counts a step for each bucket.
pub fn mill<M: Engine + Drop, L: Ledger>(
    alloc: Global,
    order: Order<M>,
    steps: &mut Steps<L>,
) -> Result<Milled<M>, NoMemory>
    requires { IsOrder M.next M.width M.is_spent order }
    ensures order { IfOk result (λ m. m.order ≡ order) }
    ensures steps { OnOk result (steps.new ≡ steps.old + length order.buckets) }
{
    let Ok(mut after) = order.before.copy(alloc) else {
        return Err(NoMemory);
    };
    let buckets = order.buckets.as_slice();
    let outputs = redo(alloc, &mut after, buckets, order.cursor, steps)?;
    Ok(Milled {
        order,
        after,
        outputs,
    })
}
