//! The totals of one cell.
ghost use Rattle.std.specs.Prelude.{◌≡◌, IfOk, OnOk, map};
ghost use Rattle.ops_window.specs.Windows.{group_of as group_value};
ghost use Rattle.ops_window.specs.Feeding as feeding;

use dpc_lists::faults::NoMemory;
use dpc_model::operators::Agg;
use dpc_model::tuples::Tuple;
use std::alloc::{AllocError, Global};
use std::marker::Model;

/// A total for each aggregate.
#[derive(Drop)]
pub struct Totals {
    numbers: Vec<i128>,
}

impl Model for Totals {
    ghost use Rattle.std.specs.Prelude.{ℤ, List};

    ghost Value = { List ℤ };

    ghost view = { λ t. t.numbers.items };
}

impl Clone for Totals {
    ghost is_clone = { λ totals copy. copy ≡ totals };

    fn clone(&self) -> Result<Totals, AllocError> {
        Ok(Totals {
            numbers: self.numbers.clone()?,
        })
    }
}

impl Totals {
    /// These totals.
    pub(crate) fn from_slice(alloc: Global, numbers: &[i128]) -> Result<Totals, AllocError>
        ensures { IfOk result (λ totals. totals ≡ numbers.now) }
    {
        Ok(Totals {
            numbers: Vec::from_slice(alloc, numbers)?,
        })
    }

    /// The totals as a slice.
    pub fn as_slice(&self) -> &[i128]
        ensures { result.now ≡ self.now }
    {
        self.numbers.as_slice()
    }

    /// Makes each total one over a tuple more. After an error they are of no use.
    pub(crate) fn grow(&mut self, aggs: &[Agg], tuple: &Tuple) -> Result<(), NoMemory>
        ensures { OnOk result (self.new ≡ feeding.next_totals tuple.now aggs.now self.old) }
    {
        count_in(aggs, tuple, self.numbers.as_mut_slice())
    }

    /// Makes each total one over the tuples of the others too. After an error they are of no use.
    pub(crate) fn join(&mut self, aggs: &[Agg], others: &[i128]) -> Result<(), NoMemory>
        ensures { OnOk result (self.new ≡ feeding.joined_totals aggs.now self.old others.now) }
    {
        join_in(aggs, others, self.numbers.as_mut_slice())
    }
}

/// The tuple's group, 0 where there is no group column.
pub(crate) fn group_of(group: Option<u64>, tuple: &Tuple) -> i64
    ensures { result ≡ group_value group tuple.now }
{
    match group {
        None => 0,
        Some(number) => tuple.column(number),
    }
}

/// An aggregate's total over one tuple.
fn first_total(tuple: &Tuple, agg: Agg) -> i128
    ensures { result ≡ feeding.first_total tuple.now agg }
{
    match agg {
        Agg::Count => 1,
        Agg::Sum(number) | Agg::Min(number) | Agg::Max(number) => i128::from(tuple.column(number)),
    }
}

/// The total over one tuple more. The error says that it passes 128 bits.
fn next_total(tuple: &Tuple, agg: Agg, total: i128) -> Result<i128, NoMemory>
    ensures { IfOk result (λ next. next ≡ feeding.next_total tuple.now agg total) }
{
    match agg {
        Agg::Count => total.checked_add(1).ok_or(NoMemory),
        Agg::Sum(number) => total
            .checked_add(i128::from(tuple.column(number)))
            .ok_or(NoMemory),
        Agg::Min(number) => Ok(total.min(i128::from(tuple.column(number)))),
        Agg::Max(number) => Ok(total.max(i128::from(tuple.column(number)))),
    }
}

/// The totals over one tuple.
pub(crate) fn first_totals(alloc: Global, aggs: &[Agg], tuple: &Tuple) -> Result<Totals, AllocError>
    ensures { IfOk result (λ totals. totals ≡ map (feeding.first_total tuple.now) aggs.now) }
{
    let mut numbers = Vec::with_capacity(alloc, aggs.len())?;
    for agg in aggs {
        numbers.push(first_total(tuple, *agg))?;
    }
    Ok(Totals { numbers })
}

/// Counts one more tuple in, in place.
fn count_in(aggs: &[Agg], tuple: &Tuple, totals: &mut [i128]) -> Result<(), NoMemory>
    ensures { OnOk result (totals.new ≡ feeding.next_totals tuple.now aggs.now totals.old) }
{
    for i in 0..aggs.len().min(totals.len()) {
        totals[i] = next_total(tuple, aggs[i], totals[i])?;
    }
    Ok(())
}

/// The total over the tuples of both. The error says that it passes 128 bits.
fn joined_total(agg: Agg, total: i128, other: i128) -> Result<i128, NoMemory>
    ensures { IfOk result (λ whole. whole ≡ feeding.joined_total agg total other) }
{
    match agg {
        Agg::Count | Agg::Sum(_) => total.checked_add(other).ok_or(NoMemory),
        Agg::Min(_) => Ok(total.min(other)),
        Agg::Max(_) => Ok(total.max(other)),
    }
}

/// Joins others in, in place.
fn join_in(aggs: &[Agg], others: &[i128], totals: &mut [i128]) -> Result<(), NoMemory>
    ensures { OnOk result (totals.new ≡ feeding.joined_totals aggs.now totals.old others.now) }
{
    for i in 0..aggs.len().min(totals.len()).min(others.len()) {
        totals[i] = joined_total(aggs[i], totals[i], others[i])?;
    }
    Ok(())
}

/// A total as its row has it: a sum becomes the nearest value of i64. The error says that another
/// total has none there.
pub(crate) fn finished(agg: Agg, total: i128) -> Result<i64, NoMemory>
    ensures { IfOk result (λ value. value ≡ feeding.finished agg total) }
{
    match agg {
        Agg::Sum(_) => {
            let nearest = if total < 0 { i64::MIN } else { i64::MAX };
            Ok(i64::try_from(total).unwrap_or(nearest))
        }
        _ => i64::try_from(total).map_err(|_| NoMemory),
    }
}
