//! Whether the numbers and the counts of an operator are in their ranges.
ghost use Rattle.std.specs.Prelude.{◌≡◌, ℕ, ◌&&◌, nat_lt, unwrap_or};
ghost use Rattle.dpc_lists.specs.Lists.{list_all};
ghost use Rattle.script_rules.specs.Places as spec;
ghost use Rattle.script_rules.specs.Reasons.{agg_reads_below};
ghost use Rattle.script_rules.specs.Checking.{top, is_formula_in_range, are_inputs_in_range, is_kind_in_range, is_op_in_range};
ghost use Rattle.script_rules.specs.Checking as rule;

use crate::ranges::{greatest_number, is_between, is_i64, is_u64};
use dpc_model::expressions::{Expr, ExprNode};
use dpc_model::operators::{Agg, OpKind, OpSpec};
use dpc_model::plans::Plan;
use script_words::spelling::is_name;

/// How many columns can be named.
const COLUMNS: u64 = 8;

/// Whether an expression names columns of the first 8 alone.
fn is_expression_in_range(expr: &Expr) -> bool
    ensures { result ≡ is_formula_in_range expr.now }
{
    match &expr.node {
        ExprNode::Col(column) => *column < COLUMNS,
        ExprNode::Num(number) => is_i64(*number),
        ExprNode::Time => true,
        ExprNode::Neg(e) | ExprNode::Not(e) => is_expression_in_range(e),
        ExprNode::Bin(_, d, e) => is_expression_in_range(d) && is_expression_in_range(e),
        ExprNode::If(c, d, e) => {
            is_expression_in_range(c) && is_expression_in_range(d) && is_expression_in_range(e)
        }
    }
}

fn are_expressions_in_range(exprs: &[Expr]) -> bool
    ensures { result ≡ list_all is_formula_in_range exprs.now }
{
    for expr in exprs {
        if !is_expression_in_range(expr) {
            return false;
        }
    }
    true
}

/// Whether an aggregate reads one of the first so many columns, or none.
fn reads_below(columns: u64, agg: Agg) -> bool
    ensures { result ≡ agg_reads_below columns agg }
{
    match agg {
        Agg::Count => true,
        Agg::Sum(column) | Agg::Min(column) | Agg::Max(column) => column < columns,
    }
}

/// Whether each aggregate reads one of the first so many columns, or none.
pub fn all_read_below(columns: u64, aggs: &[Agg]) -> bool
    ensures { result ≡ list_all (agg_reads_below columns) aggs.now }
{
    for agg in aggs {
        if !reads_below(columns, *agg) {
            return false;
        }
    }
    true
}

fn are_keys_in_range(keys: &[(u64, u64)]) -> bool
    ensures { result ≡ list_all (λ (pair : ℕ × ℕ). rule.is_u64 pair.0 && rule.is_u64 pair.1) keys.now }
{
    for key in keys {
        let (left, right) = *key;
        if !(is_u64(left) && is_u64(right)) {
            return false;
        }
    }
    true
}

/// Whether an operator of this kind may have so many inputs.
fn are_inputs_in_range(kind: &OpKind, inputs: u64) -> bool
    ensures { result ≡ are_inputs_in_range kind.now inputs }
{
    match kind {
        OpKind::Filter(_) | OpKind::Map(_) | OpKind::Aggregate(_, _, _, _) => inputs == 1,
        OpKind::Union => is_between(2, 8, inputs),
        OpKind::Join(_, _) => inputs == 2,
    }
}

/// Whether the windows and the aggregates are in range: size, step and group's column.
fn are_windows_in_range(plan: &Plan, size: u64, step: u64, group: Option<u64>) -> bool
    ensures { result ≡ (spec.is_between 1 (top plan.now) size && spec.is_between 1 (top plan.now) step && nat_lt (unwrap_or group 0) 8) }
{
    let top = greatest_number(plan);
    is_between(1, top, size) && is_between(1, top, step) && group.unwrap_or(0) < COLUMNS
}

fn is_kind_in_range(plan: &Plan, kind: &OpKind) -> bool
    ensures { result ≡ is_kind_in_range plan.now kind.now }
{
    match kind {
        OpKind::Filter(test) => is_expression_in_range(test),
        OpKind::Map(exprs) => {
            is_between(1, 8, exprs.len() as u64) && are_expressions_in_range(exprs.as_slice())
        }
        OpKind::Union => true,
        OpKind::Join(within, keys) => {
            is_between(0, greatest_number(plan), *within)
                && is_between(0, 8, keys.len() as u64)
                && are_keys_in_range(keys.as_slice())
        }
        OpKind::Aggregate(size, step, group, aggs) => {
            are_windows_in_range(plan, *size, *step, *group)
                && is_between(1, 8, aggs.len() as u64)
                && all_read_below(COLUMNS, aggs.as_slice())
        }
    }
}

/// Whether an operator's name, its number of inputs and the numbers of its kind are in range.
fn is_operator_in_range(plan: &Plan, op: &OpSpec) -> bool
    ensures { result ≡ is_op_in_range plan.now op.now }
{
    is_name(op.name.as_slice())
        && are_inputs_in_range(&op.kind, op.reads.len() as u64)
        && is_kind_in_range(plan, &op.kind)
}

/// Whether every operator is in range.
pub fn are_operators_in_range(plan: &Plan, ops: &[OpSpec]) -> bool
    ensures { result ≡ list_all (is_op_in_range plan.now) ops.now }
{
    for op in ops {
        if !is_operator_in_range(plan, op) {
            return false;
        }
    }
    true
}
