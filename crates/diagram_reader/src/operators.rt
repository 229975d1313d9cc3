//! Lines of operators, taken into the script under way. No reason stands against the line's words and its part.
ghost use Rattle.std.specs.Prelude.{◌≡◌, ◌+◌, ◌^◌, ◌<◌, ◌≤◌, ℕ, nat_lt, nat_le, true, length, map, drop, option_map, unwrap_or, is_some, if◌then◌else◌, IfSome};
ghost use Rattle.dpc_model.specs.Formula as formula;
ghost use Rattle.dpc_lists.specs.Lists.{nth, list_all};
ghost use Rattle.dpc_model.specs.declared.operators.OpKind.TheVariants as kind;
ghost use Rattle.script_rules.specs.Reasons.{is_its_part, agg_reads_below};
ghost use Rattle.script_rules.specs.Statements.{statement_of, pairs};
ghost use Rattle.script_rules.specs.Spelling.{is_numeral, number};
ghost use Rattle.script_rules.specs.declared.keywords.Keyword.TheVariants as key;
ghost use Rattle.script_words.specs.Cursors.{words_left};
ghost use Rattle.script_words.specs.Faultless.{IsFaultless};
ghost use Rattle.script_draft.specs.Shapes.{HasShape};
ghost use Rattle.diagram_reader.specs.Readings.{IsSaid};

use crate::faults::LineFault;
use crate::statements::{all_names, names_at, number_at};
use dpc_lists::lists::Listed;
use dpc_model::expressions::Expr;
use dpc_model::operators::{Agg, OpKind};
use script_draft::draft::Draft;
use script_draft::shape::Shape;
use script_words::expressions::{columns_read, longest_expression, read_expressions};
use script_words::operands::{read_aggs, read_pairs};
use script_words::spelling::{column_of, number};
use script_words::words::Words;
use std::alloc::Global;

/// The words from a place on.
fn words_from(words: Words<'_>, place: u64) -> Words<'_>
    ensures { words_left result ≡ drop place (words_left words.entry) }
{
    let mut words = words;
    words.skip(place);
    words
}

/// The only one of expressions.
fn only(expressions: Vec<Expr>) -> Expr
    requires { length expressions.items ≡ 1 }
    ensures { result ≡ nth formula.Time expressions.items 0 }
{
    let mut expressions = expressions;
    expressions.swap_remove(0)
}

/// The line of a filter.
pub fn filter(alloc: Global, draft: &mut Draft, words: Words<'_>) -> Result<(), LineFault>
    requires faultless { IsFaultless draft.old key.Filter (words_left words) }
    requires part { is_its_part draft.old key.Filter ≡ true }
    ensures { IsSaid draft.old draft.new (statement_of key.Filter (words_left words.entry)) result }
{
    let name = words.word(0);
    let inputs = names_at(words, 1, 1);
    let rest = words_from(words, 2);
    let shape = Shape::Filter(columns_read(rest), longest_expression(rest));
    if let Some(reason) = draft.fault_of_operator(name, inputs, shape) {
        return Err(LineFault::Refused(reason));
    }
    let test = only(read_expressions(alloc, rest)?);
    draft.add_operator(alloc, name, inputs, OpKind::Filter(test))?;
    Ok(())
}

/// The line of a map.
pub fn map(alloc: Global, draft: &mut Draft, words: Words<'_>) -> Result<(), LineFault>
    requires faultless { IsFaultless draft.old key.Map (words_left words) }
    requires part { is_its_part draft.old key.Map ≡ true }
    ensures { IsSaid draft.old draft.new (statement_of key.Map (words_left words.entry)) result }
{
    let name = words.word(0);
    let inputs = names_at(words, 1, 1);
    let count = number_at(words, 2);
    let rest = words_from(words, 3);
    let shape = Shape::Map(columns_read(rest), longest_expression(rest), count);
    if let Some(reason) = draft.fault_of_operator(name, inputs, shape) {
        return Err(LineFault::Refused(reason));
    }
    let columns = Listed::from_vec(read_expressions(alloc, rest)?);
    draft.add_operator(alloc, name, inputs, OpKind::Map(columns))?;
    Ok(())
}

/// The line of a union.
pub fn union(alloc: Global, draft: &mut Draft, words: Words<'_>) -> Result<(), LineFault>
    requires part { is_its_part draft.old key.Union ≡ true }
    ensures { IsSaid draft.old draft.new (statement_of key.Union (words_left words.entry)) result }
{
    let name = words.word(0);
    let inputs = all_names(words, 1);
    if let Some(reason) = draft.fault_of_operator(name, inputs, Shape::Union) {
        return Err(LineFault::Refused(reason));
    }
    draft.add_operator(alloc, name, inputs, OpKind::Union)?;
    Ok(())
}

/// The columns up to this one, as far as an input has at most 8.
fn columns_to(column: u64) -> u64
    ensures { (n : ℕ) → n ≤ 8 → nat_lt column n ≡ nat_le result n }
{
    column.saturating_add(1)
}

/// The columns up to the one that a key is.
fn columns_of_key(key: &[u8]) -> u64
    requires { is_numeral key.now ≡ true }
    ensures { (n : ℕ) → n ≤ 8 → nat_lt (number key.now) n ≡ nat_le result n }
{
    match number(key) {
        Some(column) => columns_to(column),
        None => u64::MAX,
    }
}

/// The shape of a join of these keys, left and right by turns.
fn shape_of_join(mut keys: Words<'_>) -> Shape
    requires { list_all is_numeral (words_left keys) ≡ true }
    ensures { (within : ℕ) → HasShape (kind.Join within (pairs (map number (words_left keys.entry)))) result }
{
    let mut left: u64 = 0;
    let mut right: u64 = 0;
    while let Some(first) = keys.next() {
        let Some(second) = keys.next() else {
            break;
        };
        left = left.max(columns_of_key(first));
        right = right.max(columns_of_key(second));
    }
    Shape::Join(left, right)
}

/// The line of a join.
pub fn join(alloc: Global, draft: &mut Draft, words: Words<'_>) -> Result<(), LineFault>
    requires faultless { IsFaultless draft.old key.Join (words_left words) }
    requires part { is_its_part draft.old key.Join ≡ true }
    ensures { IsSaid draft.old draft.new (statement_of key.Join (words_left words.entry)) result }
{
    let name = words.word(0);
    let inputs = names_at(words, 1, 2);
    let within = number_at(words, 3);
    let rest = words_from(words, 4);
    let shape = shape_of_join(rest);
    if let Some(reason) = draft.fault_of_operator(name, inputs, shape) {
        return Err(LineFault::Refused(reason));
    }
    // a key past u64 is no column of an input
    let Some(keys) = read_pairs(alloc, rest)? else {
        unreachable!()
    };
    draft.add_operator(alloc, name, inputs, OpKind::Join(within, keys))?;
    Ok(())
}

/// The columns up to the one that an aggregate reads.
fn columns_of_agg(agg: Agg) -> u64
    ensures { (n : ℕ) → n ≤ 8 → agg_reads_below n agg ≡ nat_le result n }
{
    match agg {
        Agg::Count => 0,
        Agg::Sum(column) | Agg::Min(column) | Agg::Max(column) => columns_to(column),
    }
}

/// The columns up to the last one that aggregates read.
fn columns_of_aggs(aggs: &[Agg]) -> u64
    ensures { (n : ℕ) → n ≤ 8 → list_all (agg_reads_below n) aggs.now ≡ nat_le result n }
{
    let mut columns: u64 = 0;
    for agg in aggs {
        columns = columns.max(columns_of_agg(*agg));
    }
    columns
}

/// The columns up to a group's.
fn columns_of_group(group: Option<u64>) -> u64
    requires { IfSome group (λ column. column < 8) }
    ensures { result ≡ unwrap_or (option_map (λ column. column + 1) group) 0 }
{
    match group {
        Some(column) => column + 1,
        None => 0,
    }
}

/// The columns of a result with so many aggregates.
fn columns_of_result(group: Option<u64>, aggs: u64) -> u64
    requires { aggs < 2 ^ 63 }
    ensures { result ≡ (if is_some group then 1 else 0) + aggs }
{
    match group {
        Some(_) => aggs + 1,
        None => aggs,
    }
}

/// The shape of an aggregate.
fn shape_of_aggregate(size: u64, step: u64, group: Option<u64>, aggs: &Listed<Agg>) -> Shape
    requires column { IfSome group (λ column. column < 8) }
    requires few { length aggs.now < 2 ^ 63 }
    ensures { HasShape (kind.Aggregate size step group aggs.now) result }
{
    let reads = columns_of_group(group).max(columns_of_aggs(aggs.as_slice()));
    let columns = columns_of_result(group, aggs.len() as u64);
    Shape::Aggregate(size, step, reads, columns)
}

/// The line of an aggregate.
pub fn aggregate(alloc: Global, draft: &mut Draft, words: Words<'_>) -> Result<(), LineFault>
    requires faultless { IsFaultless draft.old key.Aggregate (words_left words) }
    requires part { is_its_part draft.old key.Aggregate ≡ true }
    ensures { IsSaid draft.old draft.new (statement_of key.Aggregate (words_left words.entry)) result }
{
    let name = words.word(0);
    let inputs = names_at(words, 1, 1);
    let size = number_at(words, 2);
    let step = number_at(words, 3);
    let group = column_of(words.word(4));
    let rest = words_from(words, 5);
    let aggs = read_aggs(alloc, rest)?;
    let shape = shape_of_aggregate(size, step, group, &aggs);
    if let Some(reason) = draft.fault_of_operator(name, inputs, shape) {
        return Err(LineFault::Refused(reason));
    }
    let kind = OpKind::Aggregate(size, step, group, aggs);
    draft.add_operator(alloc, name, inputs, kind)?;
    Ok(())
}
