//! The lines of operators.
ghost use Rattle.std.specs.Prelude.{◌≡◌, ◌∷◌, [], ◌++◌, OnOk, flat_map, map, codes, decimal, ℕ};
ghost use Rattle.dpc_model.specs.Words.{line_of};
ghost use Rattle.dpc_model.specs.ScriptText.{agg_words, group_word, kind_word, kind_words, operator_line, wire_word};
ghost use Rattle.line_writer.specs.Spaces.{behind_spaces};

use crate::expressions::{put_column, put_expression, put_expressions};
use crate::names::wire_name;
use dpc_lists::faults::NoMemory;
use dpc_model::operators::{Agg, OpKind, OpSpec, Wire};
use dpc_model::plans::{FragSpec, Plan};
use line_writer::{end_line, put_first, put_number, put_word};

/// An aggregate's words, each behind a space.
fn put_aggregate(text: &mut Vec<u8>, agg: Agg) -> Result<(), NoMemory>
    ensures { OnOk result (text.new.items ≡ text.old.items ++ behind_spaces (agg_words agg)) }
{
    match agg {
        Agg::Count => put_word(text, b"count"),
        Agg::Sum(column) => {
            put_word(text, b"sum")?;
            put_column(text, column)
        }
        Agg::Min(column) => {
            put_word(text, b"min")?;
            put_column(text, column)
        }
        Agg::Max(column) => {
            put_word(text, b"max")?;
            put_column(text, column)
        }
    }
}

/// The words of aggregates one after another, each behind a space.
fn put_aggregates(text: &mut Vec<u8>, aggs: &[Agg]) -> Result<(), NoMemory>
    ensures { OnOk result (text.new.items ≡ text.old.items ++ behind_spaces (flat_map agg_words aggs.now)) }
{
    for agg in aggs {
        put_aggregate(text, *agg)?;
    }
    Ok(())
}

/// The column of a group, or `-`, behind a space.
fn put_group(text: &mut Vec<u8>, group: Option<u64>) -> Result<(), NoMemory>
    ensures { OnOk result (text.new.items ≡ text.old.items ++ behind_spaces (group_word group ∷ [])) }
{
    match group {
        None => put_word(text, b"-"),
        Some(column) => put_column(text, column),
    }
}

/// The key columns of left and right in pairs, each number behind a space.
fn put_keys(text: &mut Vec<u8>, keys: &[(u64, u64)]) -> Result<(), NoMemory>
    ensures { OnOk result (text.new.items
        ≡ text.old.items ++ behind_spaces (flat_map (λ (key : ℕ × ℕ). decimal key.0 ∷ decimal key.1 ∷ []) keys.now)) }
{
    for (left, right) in keys {
        put_number(text, *left)?;
        put_number(text, *right)?;
    }
    Ok(())
}

/// The first word of an operator's line.
fn kind_word(kind: &OpKind) -> &'static [u8]
    ensures { result.now ≡ kind_word kind.now }
{
    match kind {
        OpKind::Filter(_) => b"filter",
        OpKind::Map(_) => b"map",
        OpKind::Union => b"union",
        OpKind::Join(..) => b"join",
        OpKind::Aggregate(..) => b"aggregate",
    }
}

/// What stands behind an operator's inputs, each word behind a space.
fn put_kind(text: &mut Vec<u8>, kind: &OpKind) -> Result<(), NoMemory>
    ensures { OnOk result (text.new.items ≡ text.old.items ++ behind_spaces (kind_words kind.now)) }
{
    match kind {
        OpKind::Filter(test) => put_expression(text, test),
        OpKind::Map(exprs) => {
            put_number(text, exprs.len() as u64)?;
            put_expressions(text, exprs.as_slice())
        }
        OpKind::Union => Ok(()),
        OpKind::Join(within, keys) => {
            put_number(text, *within)?;
            put_keys(text, keys.as_slice())
        }
        OpKind::Aggregate(size, step, group, aggs) => {
            put_number(text, *size)?;
            put_number(text, *step)?;
            put_group(text, *group)?;
            put_aggregates(text, aggs.as_slice())
        }
    }
}

/// The names of what an operator reads, each behind a space.
fn put_reads(
    text: &mut Vec<u8>,
    plan: &Plan,
    frag: &FragSpec,
    reads: &[Wire],
) -> Result<(), NoMemory>
    ensures { OnOk result (text.new.items ≡ text.old.items ++ behind_spaces (map (wire_word plan.now frag.now) reads.now)) }
{
    for wire in reads {
        put_word(text, wire_name(plan, frag, *wire))?;
    }
    Ok(())
}

/// The line of an operator of a fragment.
pub fn put_operator(
    text: &mut Vec<u8>,
    plan: &Plan,
    frag: &FragSpec,
    op: &OpSpec,
) -> Result<(), NoMemory>
    ensures { OnOk result (text.new.items ≡ text.old.items ++ line_of (operator_line plan.now frag.now op.now)) }
{
    put_first(text, kind_word(&op.kind))?;
    put_word(text, op.name.as_slice())?;
    put_reads(text, plan, frag, op.reads.as_slice())?;
    put_kind(text, &op.kind)?;
    end_line(text)?;
    Ok(())
}
