//! The state of a mill as plain data, and operators with such a state.
ghost use Rattle.std.specs.Prelude.{◌≡◌, ◌*◌, ℕ, map, true, Some, None, All, IfOk, OnOk};
ghost use Rattle.dpc_model.specs.Fragments.{IsSoundKind, AreSoundOps};
ghost use Rattle.fragment_mill.specs.declared.operator.Operator.TheVariants.{Join as JoinOperator, Aggregate as AggregateOperator};
ghost use Rattle.fragment_mill.specs.Mills.{new_operator, new_stage};
ghost use Rattle.fragment_mill.specs.States.{part_of, SuitsItself, are_sides, are_cells, suits_kind as may_suit_kind, fault_from, resumed as resumed_operator, resumed_stage as stage_resumed, resumed_stages as stages_resumed};
ghost use Rattle.fragment_mill.specs.declared.mill.Stage.{Stage};

use crate::mill::Stage;
use crate::operator::Operator;
use crate::views::KeptView;
use dpc_lists::exact::Exact;
use dpc_lists::faults::NoMemory;
use dpc_lists::lists::Listed;
use dpc_model::operators::{OpKind, OpSpec};
use dpc_model::tuples::{Tuple, Tuples};
use ops_join::join::Join;
use ops_join::saved;
use ops_stateless::filter::Filter;
use ops_stateless::map::MapOp;
use ops_stateless::union::Union;
use ops_window::aggregate::Aggregate;
use ops_window::saved as saved_cells;
use ops_window::saved::Cell;
use std::alloc::Global;
use std::collections::VecDeque;

/// What an operator keeps between buckets.
#[derive(Drop)]
pub enum OperatorParts {
    /// Nothing, as a filter, a map and a union do.
    Plain,
    /// The left and the right tuples of a join, in order of time.
    Join(Tuples, Tuples),
    /// The cells of an aggregate, in order of begin and group.
    Aggregate(Listed<Cell>),
}

/// What a mill keeps between buckets.
#[derive(Drop)]
pub struct MillParts {
    /// The next bucket.
    pub next: u64,
    /// What each operator keeps, in the plan's order.
    pub operators: Listed<OperatorParts>,
}

/// Why parts make no mill.
#[derive(Clone, Copy, PartialEq, Eq, Debug)]
pub enum PartsFault {
    NoMemory,
    /// The operator of this number is the first that can't have kept what it is given, or there are more
    /// operators than parts, or fewer, and this is the lesser count.
    BadShape(u64),
}

/// The same tuples again, as a list.
fn listed(alloc: Global, tuples: &VecDeque<Tuple>) -> Result<Tuples, NoMemory>
    ensures { IfOk result (λ list. list ≡ tuples.now.items) }
{
    let mut copies = Vec::with_capacity(alloc, tuples.len())?;
    for i in 0..tuples.len() {
        copies.push(tuples[i].copy(alloc)?)?;
    }
    Ok(Listed::from_vec(copies))
}

/// What an operator keeps, copied.
fn part(alloc: Global, operator: &Operator) -> Result<OperatorParts, NoMemory>
    ensures part { IfOk result (λ p. p ≡ part_of operator.now) }
    ensures suits { SuitsItself operator.now }
{
    match operator.kept() {
        KeptView::Plain => Ok(OperatorParts::Plain),
        KeptView::Join(left, right) => {
            let left = listed(alloc, left)?;
            let right = listed(alloc, right)?;
            Ok(OperatorParts::Join(left, right))
        }
        KeptView::Aggregate(cells) => Ok(OperatorParts::Aggregate(cells.saved(alloc)?)),
    }
}

/// What each stage's operator keeps, copied.
pub(crate) fn all_parts(alloc: Global, stages: &[Stage]) -> Result<Listed<OperatorParts>, NoMemory>
    ensures parts { IfOk result (λ ps. ps ≡ map (λ (s : Stage). part_of s.operator) stages.now) }
    ensures suit { OnOk result (All (λ (s : Stage). SuitsItself s.operator) stages.now) }
{
    let mut parts = Vec::with_capacity(alloc, stages.len())?;
    for stage in stages {
        parts.push(part(alloc, &stage.operator)?)?;
    }
    Ok(Listed::from_vec(parts))
}

/// Whether an operator of this kind can have kept this where the next bucket begins at `begin`.
fn suits_kind(kind: &OpKind, begin: u128, part: &OperatorParts) -> bool
    requires { IsSoundKind kind.now }
    ensures { result ≡ may_suit_kind begin kind.now part.now }
{
    match kind {
        OpKind::Filter(_) | OpKind::Map(_) | OpKind::Union => match part {
            OperatorParts::Plain => true,
            _ => false,
        },
        OpKind::Join(within, _) => match part {
            OperatorParts::Join(left, right) => {
                saved::can_all_wait(*within, begin, left.as_slice())
                    && saved::can_all_wait(*within, begin, right.as_slice())
            }
            _ => false,
        },
        OpKind::Aggregate(size, step, group, aggs) => match part {
            OperatorParts::Aggregate(cells) => {
                let aggs = aggs.as_slice();
                let cells = cells.as_slice();
                saved_cells::can_all_wait(*size, *step, *group, aggs, begin, cells)
            }
            _ => false,
        },
    }
}

/// A join that took nothing yet with these sides before bucket `next`.
fn resumed_join(
    alloc: Global,
    join: Join,
    next: u64,
    part: OperatorParts,
) -> Result<Operator, NoMemory>
    requires { are_sides join.within (next * join.width) part ≡ true }
    ensures { IfOk result (λ o. o ≡ resumed_operator next (JoinOperator join) part) }
{
    match part {
        OperatorParts::Join(left, right) => {
            Ok(Operator::Join(Join::from_sides(alloc, join, next, left, right)?))
        }
        _ => Ok(Operator::Join(join)),
    }
}

/// An aggregate that took nothing yet with these cells before bucket `next`.
fn resumed_aggregate(
    alloc: Global,
    aggregate: Aggregate,
    next: u64,
    part: OperatorParts,
) -> Result<Operator, NoMemory>
    requires { are_cells aggregate.size aggregate.step aggregate.group aggregate.aggs (next * aggregate.width) part ≡ true }
    ensures { IfOk result (λ o. o ≡ resumed_operator next (AggregateOperator aggregate) part) }
{
    match part {
        OperatorParts::Aggregate(cells) => {
            let aggregate = Aggregate::from_cells(alloc, aggregate, next, cells.as_slice())?;
            Ok(Operator::Aggregate(aggregate))
        }
        _ => Ok(Operator::Aggregate(aggregate)),
    }
}

/// The operator of so many inputs over buckets of this width, with this state before bucket `next`.
fn resumed(
    alloc: Global,
    kind: &OpKind,
    inputs: u64,
    width: u64,
    next: u64,
    part: OperatorParts,
) -> Result<Operator, NoMemory>
    requires sound { IsSoundKind kind.now }
    requires suits { may_suit_kind (next * width) kind.now part ≡ true }
    ensures { IfOk result (λ o. o ≡ resumed_operator next (new_operator width inputs kind.now) part) }
{
    match kind {
        OpKind::Filter(test) => Ok(Operator::Filter(Filter::before(test.copy(alloc)?, next))),
        OpKind::Map(exprs) => Ok(Operator::Map(MapOp::before(exprs.copy(alloc)?, next))),
        OpKind::Union => Ok(Operator::Union(Union::before(inputs, width, next))),
        OpKind::Join(within, keys) => {
            let join = Join::new(alloc, *within, keys.copy(alloc)?, width);
            resumed_join(alloc, join, next, part)
        }
        OpKind::Aggregate(size, step, group, aggs) => {
            let aggs = aggs.copy(alloc)?;
            let aggregate = Aggregate::new(alloc, *size, *step, *group, aggs, width);
            resumed_aggregate(alloc, aggregate, next, part)
        }
    }
}

/// The operator of a plan with what it reads, and with this state before bucket `next`.
fn resumed_stage(
    alloc: Global,
    op: &OpSpec,
    width: u64,
    next: u64,
    part: OperatorParts,
) -> Result<Stage, NoMemory>
    requires sound { IsSoundKind op.now.kind }
    requires suits { may_suit_kind (next * width) op.now.kind part ≡ true }
    ensures { IfOk result (λ s. s ≡ stage_resumed next (new_stage width op.now) part) }
{
    let reads = op.reads.copy(alloc)?;
    let operator = resumed(alloc, &op.kind, op.reads.len() as u64, width, next, part)?;
    Ok(Stage { reads, operator })
}

/// The operators of a plan's fragment as stages with these states, before bucket `next`.
pub(crate) fn resumed_stages(
    alloc: Global,
    ops: &[OpSpec],
    width: u64,
    next: u64,
    parts: Listed<OperatorParts>,
) -> Result<Vec<Stage>, PartsFault>
    requires { AreSoundOps ops.now }
    ensures made { IfOk result (λ stages. stages.items ≡ stages_resumed next (map (new_stage width) ops.now) parts) }
    ensures whole { OnOk result (fault_from (next * width) 0 ops.now parts ≡ None) }
    ensures fault { (i : ℕ) → result ≡ Err (PartsFault.BadShape i)
        → fault_from (next * width) 0 ops.now parts ≡ Some i }
{
    let begin = u128::from(next) * u128::from(width);
    let Ok(mut stages) = Vec::with_capacity(alloc, ops.len()) else {
        return Err(PartsFault::NoMemory);
    };
    for part in parts.into_vec() {
        let number = stages.len();
        let Some(op) = ops.get(number) else {
            return Err(PartsFault::BadShape(number as u64));
        };
        if !suits_kind(&op.kind, begin, &part) {
            return Err(PartsFault::BadShape(number as u64));
        }
        let Ok(stage) = resumed_stage(alloc, op, width, next, part) else {
            return Err(PartsFault::NoMemory);
        };
        let Ok(()) = stages.push(stage) else {
            return Err(PartsFault::NoMemory);
        };
    }
    if stages.len() < ops.len() {
        return Err(PartsFault::BadShape(stages.len() as u64));
    }
    Ok(stages)
}
