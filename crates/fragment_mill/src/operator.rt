//! Any operator as a part of a mill.
ghost use Rattle.std.specs.Prelude.{◌≡◌, ◌+◌, ◌^◌, ◌<◌, ◌++◌, ◌↔◌, ℕ, List, true, false, unwrap_or, All, IfOk, OnOk, OnErr, is_err, IsTrue};
ghost use Rattle.dpc_model.specs.Engines.{Accepts, LiesIn};
ghost use Rattle.dpc_model.specs.declared.tuples.Tagged.{Tagged};
ghost use Rattle.dpc_model.specs.Fragments.{IsSoundKind};
ghost use Rattle.fragment_mill.specs.Mills.{new_operator, operators_of, width_of, next_of, spent_of, OperatorAfter};
ghost use Rattle.fragment_mill.specs.Milling.{IsOfBucket, added_of};
ghost use Rattle.ops_join.specs.RowsOut.{Takes, TakesFirst};

use dpc_lists::exact::Exact;
use dpc_lists::faults::NoMemory;
use dpc_model::engines::Engine;
use dpc_model::faults::StepFault;
use dpc_model::operators::OpKind;
use dpc_model::tuples::{Tagged, Tuples};
use ops_join::join::Join;
use ops_join::rows_out::{Ended, RowSink, give_all};
use ops_stateless::filter::Filter;
use ops_stateless::map::MapOp;
use ops_stateless::union::Union;
use ops_window::aggregate::Aggregate;
use std::alloc::Global;

/// An operator with its state.
#[derive(Drop)]
pub enum Operator {
    Filter(Filter),
    Map(MapOp),
    Union(Union),
    Join(Join),
    Aggregate(Aggregate),
}

impl Operator {
    /// The operator of so many inputs over buckets of this width, before bucket 0.
    pub fn new(alloc: Global, kind: &OpKind, inputs: u64, width: u64) -> Result<Operator, NoMemory>
        requires { IsSoundKind kind.now }
        ensures { IfOk result (λ o. o ≡ new_operator width inputs kind.now) }
    {
        Ok(match kind {
            OpKind::Filter(test) => Operator::Filter(Filter::new(test.copy(alloc)?)),
            OpKind::Map(exprs) => Operator::Map(MapOp::new(exprs.copy(alloc)?)),
            OpKind::Union => Operator::Union(Union::new(inputs, width)),
            OpKind::Join(within, keys) => {
                Operator::Join(Join::new(alloc, *within, keys.copy(alloc)?, width))
            }
            OpKind::Aggregate(size, step, group, aggs) => {
                let aggs = aggs.copy(alloc)?;
                Operator::Aggregate(Aggregate::new(alloc, *size, *step, *group, aggs, width))
            }
        })
    }

    /// Takes the inputs of the next bucket, as `bucket` does, and gives the rows that they add one behind
    /// another. A join holds none of them.
    pub fn bucket_into<K, R: RowSink<K>>(
        &mut self,
        alloc: Global,
        inputs: &[Tagged],
        k: u64,
        sink: &mut R,
        out: &mut K,
    ) -> Result<(), Ended>
        requires next { k ≡ next_of self.old }
        requires range { k + 1 < 2 ^ 64 }
        requires accepts { Accepts (width_of self.old) k inputs.now }
        ensures rows { OnOk result ((before : List Tagged) → OperatorAfter self.old before k
            → Takes (R.took sink.old out.old) (R.took sink.new out.new) (added_of self.old before inputs.now k)) }
        ensures first { OnErr result ((before : List Tagged) → OperatorAfter self.old before k
            → TakesFirst (R.took sink.old out.old) (R.took sink.new out.new) (added_of self.old before inputs.now k)) }
        ensures after { OnOk result ((before : List Tagged) → OperatorAfter self.old before k
            → OperatorAfter self.new (before ++ inputs.now) (k + 1)) }
        ensures idle { OnOk result (spent_of self.new ≡ false) }
        ensures next { OnOk result (next_of self.new ≡ k + 1) }
        ensures operators { operators_of self.new ≡ operators_of self.old }
        ensures width { width_of self.new ≡ width_of self.old }
    {
        match self {
            Operator::Join(join) => join.bucket_into(alloc, inputs, k, sink, out),
            _ => {
                let Ok(rows) = self.bucket(alloc, inputs, k) else {
                    return Err(Ended);
                };
                give_all(rows.as_slice(), sink, out)
            }
        }
    }
}

impl Engine for Operator {
    ghost width = { λ o. width_of o };

    ghost operators = { λ o. operators_of o };

    ghost next = { λ o. next_of o };

    ghost is_spent = { λ o. spent_of o };

    ghost after = { λ o xs k. OperatorAfter o xs k };

    /// The rows lie in the bucket, whatever came before: so it is of an operator with any state that it can
    /// be made with.
    fn bucket(&mut self, alloc: Global, inputs: &[Tagged], k: u64) -> Result<Tuples, StepFault>
        requires next { k ≡ next_of self.old }
        requires range { k + 1 < 2 ^ 64 }
        requires accepts { Accepts (width_of self.old) k inputs.now }
        ensures answer { IfOk result (λ out. (before : List Tagged) → OperatorAfter self.old before k
            → out ≡ added_of self.old before inputs.now k) }
        ensures inside { IfOk result (λ out. (w : ℕ) → unwrap_or (width_of self.old) w ≡ w → All (LiesIn w k) inputs.now
            → All (IsOfBucket w k) out) }
        ensures after { OnOk result ((before : List Tagged) → OperatorAfter self.old before k
            → OperatorAfter self.new (before ++ inputs.now) (k + 1)) }
        ensures next { OnOk result (next_of self.new ≡ k + 1) }
        ensures kept { OnErr result (next_of self.new ≡ next_of self.old) }
        ensures spent { result ≡ Err StepFault.Spent ↔ spent_of self.old ≡ true }
        ensures stays { IsTrue (spent_of self.new) ↔ IsTrue (is_err result) }
        ensures operators { operators_of self.new ≡ operators_of self.old }
        ensures width { width_of self.new ≡ width_of self.old }
    {
        match self {
            Operator::Filter(filter) => filter.bucket(alloc, inputs, k),
            Operator::Map(map) => map.bucket(alloc, inputs, k),
            Operator::Union(union) => union.bucket(alloc, inputs, k),
            Operator::Join(join) => join.bucket(alloc, inputs, k),
            Operator::Aggregate(aggregate) => aggregate.bucket(alloc, inputs, k),
        }
    }

    fn copy(&self, alloc: Global) -> Result<Operator, StepFault> {
        Ok(match self {
            Operator::Filter(filter) => Operator::Filter(filter.copy(alloc)?),
            Operator::Map(map) => Operator::Map(map.copy(alloc)?),
            Operator::Union(union) => Operator::Union(union.copy(alloc)?),
            Operator::Join(join) => Operator::Join(join.copy(alloc)?),
            Operator::Aggregate(aggregate) => Operator::Aggregate(aggregate.copy(alloc)?),
        })
    }

    fn same(&self, other: &Operator) -> bool {
        match (self, other) {
            (Operator::Filter(filter), Operator::Filter(wanted)) => filter.same(wanted),
            (Operator::Map(map), Operator::Map(wanted)) => map.same(wanted),
            (Operator::Union(union), Operator::Union(wanted)) => union.same(wanted),
            (Operator::Join(join), Operator::Join(wanted)) => join.same(wanted),
            (Operator::Aggregate(aggregate), Operator::Aggregate(wanted)) => aggregate.same(wanted),
            _ => false,
        }
    }

    fn reset(&mut self) {
        match self {
            Operator::Filter(filter) => filter.reset(),
            Operator::Map(map) => map.reset(),
            Operator::Union(union) => union.reset(),
            Operator::Join(join) => join.reset(),
            Operator::Aggregate(aggregate) => aggregate.reset(),
        }
    }
}
