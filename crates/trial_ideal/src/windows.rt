//! The aggregate over windows of whole lists.
ghost use Rattle.std.specs.Prelude.{◌≡◌, ◌+◌, ◌*◌, ◌<◌, ◌^◌, ◌++◌, ◌∷◌, [], map, IfOk, OnOk};
ghost use Rattle.dpc_model.specs.Values.{clamp};
ghost use Rattle.dpc_model.specs.Operators.{between as between_list, window_count, group_rows, total_of, sum_of, least_value, greatest_value, distinct_values, aggregated};
ghost use Rattle.trial_ideal.specs.Rows.{column_values, with_value, group_row};

use dpc_lists::exact::Exact;
use dpc_lists::faults::NoMemory;
use dpc_lists::lists::Listed;
use dpc_model::operators::Agg;
use dpc_model::tuples::{Tuple, Tuples, Vals};
use std::alloc::Global;
use std::collections::BTreeSet;

/// How many windows of a size, one every step, end at or below b.
fn ended(size: u64, step: u64, b: u64) -> u64
    requires size { 0 < size }
    requires step { 0 < step }
    ensures { result ≡ window_count size step b }
{
    if b < size { 0 } else { (b - size) / step + 1 }
}

/// The tuples from a time on and below another.
fn between(alloc: Global, tuples: &[Tuple], from: u64, to: u64) -> Result<Vec<Tuple>, NoMemory>
    ensures { IfOk result (λ out. out.items ≡ between_list from to tuples.now) }
{
    let mut out = Vec::new(alloc);
    for tuple in tuples {
        if from <= tuple.stime && tuple.stime < to {
            out.push(tuple.copy(alloc)?)?;
        }
    }
    Ok(out)
}

/// The exact sum of a column, clamped once.
fn sum(tuples: &[Tuple], column: u64) -> Result<i64, NoMemory>
    ensures { IfOk result (λ total. total ≡ clamp (sum_of (column_values column tuples.now))) }
{
    let mut total: i128 = 0;
    let mut i = tuples.len();
    while i > 0 {
        i -= 1;
        let value = i128::from(tuples[i].column(column));
        total = value.checked_add(total).ok_or(NoMemory)?;
    }
    Ok(clamped(total))
}

/// The nearest value of i64.
fn clamped(total: i128) -> i64
    ensures { result ≡ clamp total }
{
    match i64::try_from(total) {
        Ok(value) => value,
        Err(_) => if total < 0 { i64::MIN } else { i64::MAX },
    }
}

/// The least value of a column, and 0 where there is no tuple.
fn least(tuples: &[Tuple], column: u64) -> i64
    ensures { result ≡ least_value (column_values column tuples.now) }
{
    let Some(last) = tuples.last() else { return 0 };
    let mut least = last.column(column);
    let mut i = tuples.len() - 1;
    while i > 0 {
        i -= 1;
        least = tuples[i].column(column).min(least);
    }
    least
}

/// The greatest value of a column, and 0 where there is no tuple.
fn greatest(tuples: &[Tuple], column: u64) -> i64
    ensures { result ≡ greatest_value (column_values column tuples.now) }
{
    let Some(last) = tuples.last() else { return 0 };
    let mut greatest = last.column(column);
    let mut i = tuples.len() - 1;
    while i > 0 {
        i -= 1;
        greatest = tuples[i].column(column).max(greatest);
    }
    greatest
}

/// An aggregate over tuples.
fn total(tuples: &[Tuple], agg: Agg) -> Result<i64, NoMemory>
    ensures { IfOk result (λ value. value ≡ total_of tuples.now agg) }
{
    match agg {
        Agg::Count => i64::try_from(tuples.len()).map_err(|_| NoMemory),
        Agg::Sum(c) => sum(tuples, c),
        Agg::Min(c) => Ok(least(tuples, c)),
        Agg::Max(c) => Ok(greatest(tuples, c)),
    }
}

/// Appends the totals of tuples, one for each aggregate.
fn push_totals(vals: &mut Vals, tuples: &[Tuple], aggs: &[Agg]) -> Result<(), NoMemory>
    ensures { OnOk result (vals.new ≡ vals.old ++ map (total_of tuples.now) aggs.now) }
{
    for agg in aggs {
        vals.push(total(tuples, *agg)?)?;
    }
    Ok(())
}

/// The values of a column without repeats, in order.
fn groups(alloc: Global, tuples: &[Tuple], column: u64) -> Result<BTreeSet<i64>, NoMemory>
    ensures { IfOk result (λ values. values.keys ≡ distinct_values (column_values column tuples.now)) }
{
    let mut values = BTreeSet::new(alloc);
    let mut i = tuples.len();
    while i > 0 {
        i -= 1;
        values.insert(tuples[i].column(column))?;
    }
    Ok(values)
}

/// The tuples with this value in a column.
fn members(alloc: Global, tuples: &[Tuple], column: u64, value: i64) -> Result<Vec<Tuple>, NoMemory>
    ensures { IfOk result (λ out. out.items ≡ with_value column value tuples.now) }
{
    let mut out = Vec::new(alloc);
    for tuple in tuples {
        if tuple.column(column) == value {
            out.push(tuple.copy(alloc)?)?;
        }
    }
    Ok(out)
}

/// Appends the rows of a window's tuples, at a time: one for each group that occurs, in order.
fn push_rows(
    alloc: Global,
    out: &mut Vec<Tuple>,
    tuples: &[Tuple],
    group: Option<u64>,
    aggs: &[Agg],
    stime: u64,
) -> Result<(), NoMemory>
    ensures { OnOk result (out.new.items ≡ out.old.items ++ group_rows group aggs.now stime tuples.now) }
{
    match group {
        None => {
            if !tuples.is_empty() {
                let mut vals = Vals::new(alloc);
                push_totals(&mut vals, tuples, aggs)?;
                out.push(Tuple { stime, vals })?;
            }
        }
        Some(column) => {
            for value in &groups(alloc, tuples, column)? {
                push_group(alloc, out, tuples, column, value, aggs, stime)?;
            }
        }
    }
    Ok(())
}

/// Appends the row of a group.
fn push_group(
    alloc: Global,
    out: &mut Vec<Tuple>,
    tuples: &[Tuple],
    column: u64,
    value: &i64,
    aggs: &[Agg],
    stime: u64,
) -> Result<(), NoMemory>
    ensures { OnOk result (out.new.items ≡ out.old.items ++ group_row column aggs.now stime tuples.now value.now ∷ []) }
{
    let members = members(alloc, tuples, column, *value)?;
    let mut vals = Vals::new(alloc);
    vals.push(*value)?;
    push_totals(&mut vals, members.as_slice(), aggs)?;
    out.push(Tuple { stime, vals })?;
    Ok(())
}

/// The rows of each window that ends at or below b, in order of end and group.
pub fn aggregate(
    alloc: Global,
    size: u64,
    step: u64,
    group: Option<u64>,
    aggs: &[Agg],
    tuples: &[Tuple],
    b: u64,
) -> Result<Tuples, NoMemory>
    requires size { 0 < size }
    requires step { 0 < step }
    ensures { IfOk result (λ out. out ≡ aggregated size step group aggs.now tuples.now b) }
{
    let mut out = Vec::new(alloc);
    for j in 0..ended(size, step, b) {
        let (start, end) = window(size, step, b, j);
        let tuples = between(alloc, tuples, start, end)?;
        push_rows(alloc, &mut out, tuples.as_slice(), group, aggs, end - 1)?;
    }
    Ok(Listed::from_vec(out))
}

/// The begin and the end of window j, which ends at or below b.
fn window(size: u64, step: u64, b: u64, j: u64) -> (u64, u64)
    requires size { 0 < size }
    requires step { 0 < step }
    requires ended { j < window_count size step b }
    requires range { b < 2 ^ 64 }
    ensures start { result.0 ≡ j * step }
    ensures end { result.1 ≡ j * step + size }
{
    let start = j * step;
    (start, start + size)
}
