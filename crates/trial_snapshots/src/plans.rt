//! A plan of one fragment, and what its operators keep.
ghost use Rattle.std.specs.Prelude.{◌≡◌, ◌<◌, length, IfOk};
ghost use Rattle.dpc_model.specs.Fragments.{AreSoundFrags, AreSoundOps};

use dpc_lists::lists::Listed;
use dpc_model::operators::{Agg, OpKind, OpSpec, Wire};
use dpc_model::plans::{FragSpec, Plan, StreamRef};
use dpc_model::tuples::{Tuple, Vals};
use fragment_mill::states::{MillParts, OperatorParts};
use ops_window::saved::Cell;
use std::alloc::{AllocError, Global};

/// A plan of one fragment with two ports, of which no more than these and the operators counts here.
pub(crate) fn plan(alloc: Global, ops: Vec<OpSpec>) -> Result<Plan, AllocError>
    requires { AreSoundOps ops.items }
    ensures known { IfOk result (λ plan. 0 < length plan.frags) }
    ensures sound { IfOk result (λ plan. AreSoundFrags plan.frags) }
    ensures width { IfOk result (λ plan. plan.width ≡ 10) }
{
    let inputs = vec![in alloc; StreamRef::Source(0), StreamRef::Source(1)]?;
    let frag = FragSpec {
        name: Listed::from_vec(Vec::new(alloc)),
        replicas: 1,
        delay: None,
        inputs: Listed::from_vec(inputs),
        ops: Listed::from_vec(ops),
    };
    Ok(Plan {
        version: 1,
        passing: true,
        width: 10,
        delay: 20,
        end: 20,
        sources: Listed::from_vec(Vec::new(alloc)),
        frags: Listed::from_vec(vec![in alloc; frag]?),
        clients: Listed::from_vec(Vec::new(alloc)),
    })
}

/// A union of both ports.
pub(crate) fn union_operators(alloc: Global) -> Result<Vec<OpSpec>, AllocError>
    ensures { IfOk result (λ ops. AreSoundOps ops.items) }
{
    let union = OpSpec {
        name: Listed::from_vec(Vec::new(alloc)),
        kind: OpKind::Union,
        reads: Listed::from_vec(vec![in alloc; Wire::Port(0), Wire::Port(1)]?),
    };
    Ok(vec![in alloc; union]?)
}

/// A join of the ports by their first columns, at most 5 apart, and the count and the greatest second column of its
/// rows by their first column over windows of 20, one every 10.
pub(crate) fn join_operators(alloc: Global) -> Result<Vec<OpSpec>, AllocError>
    ensures { IfOk result (λ ops. AreSoundOps ops.items) }
{
    let join = OpSpec {
        name: Listed::from_vec(Vec::new(alloc)),
        kind: OpKind::Join(5, Listed::from_vec(vec![in alloc; (0, 0)]?)),
        reads: Listed::from_vec(vec![in alloc; Wire::Port(0), Wire::Port(1)]?),
    };
    let aggs = Listed::from_vec(vec![in alloc; Agg::Count, Agg::Max(1)]?);
    let counts = OpSpec {
        name: Listed::from_vec(Vec::new(alloc)),
        kind: OpKind::Aggregate(20, 10, Some(0), aggs),
        reads: Listed::from_vec(vec![in alloc; Wire::Op(0)]?),
    };
    Ok(vec![in alloc; join, counts]?)
}

pub(crate) fn tuple(alloc: Global, stime: u64, values: &[i64]) -> Result<Tuple, AllocError> {
    let vals = Vals::from_slice(alloc, values)?;
    Ok(Tuple { stime, vals })
}

fn cell(alloc: Global, group: i64, totals: &[i128]) -> Result<Cell, AllocError> {
    let totals = Listed::from_vec(Vec::from_slice(alloc, totals)?);
    Ok(Cell {
        begin: 0,
        group,
        totals,
    })
}

/// What the join and the aggregate keep before bucket 1: a tuple on each side, and two cells.
pub(crate) fn kept_parts(alloc: Global) -> Result<MillParts, AllocError> {
    let left = vec![in alloc; tuple(alloc, 6, &[7])?]?;
    let right = vec![in alloc; tuple(alloc, 8, &[7])?]?;
    let cells = vec![in alloc; cell(alloc, -2, &[3, -1])?, cell(alloc, 7, &[1, 7])?]?;
    let join = OperatorParts::Join(Listed::from_vec(left), Listed::from_vec(right));
    let counts = OperatorParts::Aggregate(Listed::from_vec(cells));
    Ok(MillParts {
        next: 1,
        operators: Listed::from_vec(vec![in alloc; join, counts]?),
    })
}

/// What the union keeps, which is nothing, before this bucket.
pub(crate) fn union_parts(alloc: Global, next: u64) -> Result<MillParts, AllocError> {
    Ok(MillParts {
        next,
        operators: Listed::from_vec(vec![in alloc; OperatorParts::Plain]?),
    })
}
