//! What is too large in an operator, and whether the columns are there that it reads.
ghost use Rattle.std.specs.Prelude.{◌≡◌, ℕ, ◌+◌, ◌-◌, ◌^◌, ◌&&◌, nat_lt, min, is_some, unwrap_or, option_map, if◌then◌else◌};
ghost use Rattle.dpc_lists.specs.Lists.{list_any, list_all};
ghost use Rattle.dpc_model.specs.Formula.{words};
ghost use Rattle.dpc_model.specs.Values.{reads_below};
ghost use Rattle.script_rules.specs.Reasons as reason;

use crate::operator_ranges::all_read_below;
use dpc_model::expressions::{Expr, ExprNode};
use dpc_model::operators::{Agg, OpKind};
use script_draft::limits::{MOST_COLUMNS, MOST_WINDOWS, MOST_WORDS};

/// How many words an expression has, up to 2^64 - 1.
fn count_words(expr: &Expr) -> u64
    ensures { result ≡ min (words expr.now) (2 ^ 64 - 1) }
{
    match &expr.node {
        ExprNode::Col(_) | ExprNode::Num(_) | ExprNode::Time => 1,
        ExprNode::Neg(e) | ExprNode::Not(e) => count_words(e).saturating_add(1),
        ExprNode::Bin(_, d, e) => count_words(d)
            .saturating_add(count_words(e))
            .saturating_add(1),
        ExprNode::If(c, d, e) => count_words(c)
            .saturating_add(count_words(d))
            .saturating_add(count_words(e))
            .saturating_add(1),
    }
}

fn is_too_long(expr: &Expr) -> bool
    ensures { result ≡ reason.is_too_long expr.now }
{
    count_words(expr) > MOST_WORDS
}

fn some_is_too_long(exprs: &[Expr]) -> bool
    ensures { result ≡ list_any reason.is_too_long exprs.now }
{
    for expr in exprs {
        if is_too_long(expr) {
            return true;
        }
    }
    false
}

/// Whether an operator has an expression of too many words, or too many windows for a tuple.
pub fn is_too_large(kind: &OpKind) -> bool
    ensures { result ≡ reason.is_too_large kind.now }
{
    match kind {
        OpKind::Filter(test) => is_too_long(test),
        OpKind::Map(exprs) => some_is_too_long(exprs.as_slice()),
        OpKind::Union | OpKind::Join(_, _) => false,
        OpKind::Aggregate(size, step, _, _) => {
            MOST_WINDOWS * u128::from(*step) < u128::from(*size)
        }
    }
}

/// Whether an expression reads the first so many columns alone.
pub fn reads_below(columns: u64, expr: &Expr) -> bool
    ensures { result ≡ reads_below columns expr.now }
{
    match &expr.node {
        ExprNode::Col(column) => *column < columns,
        ExprNode::Num(_) | ExprNode::Time => true,
        ExprNode::Neg(e) | ExprNode::Not(e) => reads_below(columns, e),
        ExprNode::Bin(_, d, e) => reads_below(columns, d) && reads_below(columns, e),
        ExprNode::If(c, d, e) => {
            reads_below(columns, c) && (reads_below(columns, d) && reads_below(columns, e))
        }
    }
}

pub fn exprs_read_below(columns: u64, exprs: &[Expr]) -> bool
    ensures { result ≡ list_all (reads_below columns) exprs.now }
{
    for expr in exprs {
        if !reads_below(columns, expr) {
            return false;
        }
    }
    true
}

/// Whether the key columns are there, of so many on the left and on the right.
pub fn keys_read_below(left: u64, right: u64, keys: &[(u64, u64)]) -> bool
    ensures { result ≡ list_all (λ (pair : ℕ × ℕ). nat_lt pair.0 left && nat_lt pair.1 right) keys.now }
{
    for key in keys {
        let (l, r) = *key;
        if !(l < left && r < right) {
            return false;
        }
    }
    true
}

/// Whether the group's column is there, of so many.
fn group_reads_below(columns: u64, group: Option<u64>) -> bool
    ensures { result ≡ nat_lt (unwrap_or (option_map (λ c. c + 1) group) 0) (columns + 1) }
{
    match group {
        Some(column) => column < columns,
        None => true,
    }
}

/// Whether an aggregate reads the first so many columns alone.
pub fn aggregate_reads_below(columns: u64, group: Option<u64>, aggs: &[Agg]) -> bool
    ensures { result ≡ (nat_lt (unwrap_or (option_map (λ c. c + 1) group) 0) (columns + 1) && list_all
        (reason.agg_reads_below columns) aggs.now) }
{
    group_reads_below(columns, group) && all_read_below(columns, aggs)
}

/// Whether an aggregate's result has too many columns.
pub fn has_many_columns(group: Option<u64>, aggs: u64) -> bool
    ensures { result ≡ nat_lt 8 ((if is_some group then 1 else 0) + aggs) }
{
    match group {
        Some(_) => aggs >= MOST_COLUMNS,
        None => aggs > MOST_COLUMNS,
    }
}
