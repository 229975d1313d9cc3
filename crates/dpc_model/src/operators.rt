//! The operators of a fragment.
use crate::expressions::Expr;
use dpc_lists::exact::Exact;
use dpc_lists::lists::{Listed, Name};
use std::alloc::{AllocError, Global};

/// What an operator reads: a port of its fragment, or an earlier operator of it.
#[derive(Clone, Copy, PartialEq, Eq)]
pub enum Wire {
    Port(u64),
    Op(u64),
}

/// An aggregate over the tuples of a window.
#[derive(Clone, Copy, PartialEq, Eq)]
pub enum Agg {
    Count,
    Sum(u64),
    Min(u64),
    Max(u64),
}

/// What an operator does.
#[derive(Drop)]
pub enum OpKind {
    Filter(Expr),
    Map(Listed<Expr>),
    Union,
    /// The greatest distance in time, and the key columns of left and right.
    Join(u64, Listed<(u64, u64)>),
    /// The size of the windows, the step from one to the next, the group's column, and the aggregates.
    Aggregate(u64, u64, Option<u64>, Listed<Agg>),
}

#[derive(Drop)]
pub struct OpSpec {
    pub name: Name,
    pub kind: OpKind,
    pub reads: Listed<Wire>,
}

impl Exact for Wire {
    fn copy(&self, _alloc: Global) -> Result<Wire, AllocError> {
        Ok(*self)
    }

    fn same(&self, other: &Wire) -> bool {
        *self == *other
    }
}

impl Exact for Agg {
    fn copy(&self, _alloc: Global) -> Result<Agg, AllocError> {
        Ok(*self)
    }

    fn same(&self, other: &Agg) -> bool {
        *self == *other
    }
}

impl Exact for OpKind {
    fn copy(&self, alloc: Global) -> Result<OpKind, AllocError> {
        Ok(match self {
            OpKind::Filter(test) => OpKind::Filter(test.copy(alloc)?),
            OpKind::Map(columns) => OpKind::Map(columns.copy(alloc)?),
            OpKind::Union => OpKind::Union,
            OpKind::Join(within, keys) => OpKind::Join(*within, keys.copy(alloc)?),
            OpKind::Aggregate(size, step, group, aggs) => {
                OpKind::Aggregate(*size, *step, *group, aggs.copy(alloc)?)
            }
        })
    }

    fn same(&self, other: &OpKind) -> bool {
        match (self, other) {
            (OpKind::Filter(test), OpKind::Filter(wanted)) => test.same(wanted),
            (OpKind::Map(columns), OpKind::Map(wanted)) => columns.same(wanted),
            (OpKind::Union, OpKind::Union) => true,
            (OpKind::Join(within, keys), OpKind::Join(width, wanted)) => {
                within == width && keys.same(wanted)
            }
            (OpKind::Aggregate(size, step, group, aggs), OpKind::Aggregate(n, m, c, wanted)) => {
                size == n && step == m && group.same(c) && aggs.same(wanted)
            }
            _ => false,
        }
    }
}

impl Exact for OpSpec {
    fn copy(&self, alloc: Global) -> Result<OpSpec, AllocError> {
        let name = self.name.copy(alloc)?;
        let kind = self.kind.copy(alloc)?;
        let reads = self.reads.copy(alloc)?;
        Ok(OpSpec { name, kind, reads })
    }

    fn same(&self, other: &OpSpec) -> bool {
        self.name.same(&other.name) && self.kind.same(&other.kind) && self.reads.same(&other.reads)
    }
}
