//! What no clause says: rows counted by a person, and that calls succeed where there is memory.
ghost use Rattle.std.specs.Prelude.{◌≡◌, ◌+◌, ◌<◌, IfOk, OnOk};
ghost use Rattle.dpc_model.specs.Engines.{FitsBucket};

use dpc_lists::lists::Listed;
use dpc_model::engines::{Engine, fits_bucket};
use dpc_model::faults::StepFault;
use dpc_model::operators::Agg;
use dpc_model::tuples::{Tagged, Tuple, Tuples, Vals};
use ops_window::aggregate::Aggregate;
use std::alloc::{AllocError, Global};
use std::test::Fail;

/// A bucket of width 10 with at most one tuple.
fn bucket(alloc: Global, k: u64, tuple: Option<(u64, i64)>) -> Result<Vec<Tagged>, AllocError>
    requires k { k < 10 }
    ensures { IfOk result (λ xs. FitsBucket 10 k xs.items) }
{
    let mut inputs = Vec::new(alloc);
    if let Some((time, value)) = tuple {
        if k * 10 <= time && time < (k + 1) * 10 {
            let vals = Vals::from_slice(alloc, &[value])?;
            let tuple = Tuple { stime: time, vals };
            inputs.push(Tagged { port: 0, tuple })?;
        }
    }
    Ok(inputs)
}

/// Whether there is one row, of this time and these values.
fn is_row(rows: &Tuples, time: u64, count: i64, sum: i64) -> bool {
    match rows.as_slice() {
        [row] => row.stime == time && row.vals.as_slice() == [count, sum].as_slice(),
        _ => false,
    }
}

#[test]
fn sums_are_clamped_once(rt: HostRuntime) -> Result<(), Fail> {
    let alloc = rt.alloc();
    let aggs = Listed::from_vec(vec![in alloc; Agg::Count, Agg::Sum(0)]?);
    let mut aggregate = Aggregate::new(alloc, 30, 10, None, aggs, 10);
    let first = bucket(alloc, 0, Some((5, i64::MAX)))?;
    let Ok(rows) = aggregate.bucket(alloc, first.as_slice(), 0) else {
        return Ok(assert!(rt; false));
    };
    assert!(rt; rows.is_empty());
    let second = bucket(alloc, 1, Some((12, 6)))?;
    let Ok(rows) = aggregate.bucket(alloc, second.as_slice(), 1) else {
        return Ok(assert!(rt; false));
    };
    assert!(rt; rows.is_empty());
    let third = bucket(alloc, 2, None)?;
    let Ok(rows) = aggregate.bucket(alloc, third.as_slice(), 2) else {
        return Ok(assert!(rt; false));
    };
    assert!(rt; is_row(&rows, 29, 2, i64::MAX));
    let fourth = bucket(alloc, 3, Some((35, 1)))?;
    let Ok(rows) = aggregate.bucket(alloc, fourth.as_slice(), 3) else {
        return Ok(assert!(rt; false));
    };
    assert!(rt; is_row(&rows, 39, 2, 7));
    Ok(())
}

#[test]
fn copies_are_the_same(rt: HostRuntime) -> Result<(), Fail> {
    let alloc = rt.alloc();
    let aggs = Listed::from_vec(vec![in alloc; Agg::Max(0)]?);
    let mut aggregate = Aggregate::new(alloc, 30, 10, Some(0), aggs, 10);
    let inputs = bucket(alloc, 0, Some((5, 8)))?;
    assert!(rt; aggregate.bucket(alloc, inputs.as_slice(), 0).is_ok());
    assert_eq!(rt; aggregate.cells().len(), 1);
    let Ok(copy) = aggregate.copy(alloc) else {
        return Ok(assert!(rt; false));
    };
    assert!(rt; copy.same(&aggregate));
    aggregate.reset();
    assert!(rt; aggregate.cells().is_empty());
    assert!(rt; !copy.same(&aggregate));
    Ok(())
}

/// Adds a tuple of a group and a value at port 0.
fn add(
    alloc: Global,
    inputs: &mut Vec<Tagged>,
    time: u64,
    group: i64,
    value: i64,
) -> Result<(), AllocError> {
    let vals = Vals::from_slice(alloc, &[group, value])?;
    let tuple = Tuple { stime: time, vals };
    inputs.push(Tagged { port: 0, tuple })?;
    Ok(())
}

/// The tuples of two groups below time 60.
fn early(alloc: Global) -> Result<Vec<Tagged>, AllocError> {
    let mut inputs = Vec::new(alloc);
    add(alloc, &mut inputs, 5, 2, -3)?;
    add(alloc, &mut inputs, 5, 1, 4)?;
    add(alloc, &mut inputs, 12, 1, 6)?;
    add(alloc, &mut inputs, 27, 2, 10)?;
    add(alloc, &mut inputs, 58, 1, 1)?;
    Ok(inputs)
}

/// Those from time 60 on.
fn late(alloc: Global) -> Result<Vec<Tagged>, AllocError> {
    let mut inputs = Vec::new(alloc);
    add(alloc, &mut inputs, 61, 1, 9)?;
    add(alloc, &mut inputs, 119, 2, 7)?;
    Ok(inputs)
}

/// For each group of column 0, the least and the greatest value, the sum and the count.
fn four(alloc: Global) -> Result<Listed<Agg>, AllocError> {
    let aggs = vec![in alloc; Agg::Min(1), Agg::Max(1), Agg::Sum(1), Agg::Count]?;
    Ok(Listed::from_vec(aggs))
}

/// Whether these are the rows: of each its time and its values.
fn are_rows(rows: &Tuples, wanted: &[(u64, [i64; 5])]) -> bool {
    for i in 0..wanted.len() {
        let (time, vals) = &wanted[i];
        match rows.as_slice().get(i) {
            Some(row) if row.stime == *time && row.vals.as_slice() == vals.as_slice() => {}
            _ => return false,
        }
    }
    rows.len() == wanted.len()
}

/// Whether the next bucket, of width 60, adds these rows, and leaves so many cells.
fn adds(
    alloc: Global,
    aggregate: &mut Aggregate,
    inputs: &[Tagged],
    k: u64,
    wanted: &[(u64, [i64; 5])],
    cells: usize,
) -> Result<bool, StepFault>
    requires next { k ≡ aggregate.old.next }
    requires range { k < 10 }
    requires width { aggregate.old.width ≡ 60 }
    ensures next { OnOk result (aggregate.new.next ≡ k + 1) }
    ensures width { aggregate.new.width ≡ 60 }
{
    if !fits_bucket(inputs, 60, k) {
        return Err(StepFault::Spent);
    }
    let rows = aggregate.bucket(alloc, inputs, k)?;
    Ok(are_rows(&rows, wanted) && aggregate.cells().len() == cells)
}

#[test]
fn windows_are_joined_from_panes(rt: HostRuntime) -> Result<(), Fail> {
    let alloc = rt.alloc();
    let mut aggregate = Aggregate::new(alloc, 30, 10, Some(0), four(alloc)?, 60);
    let first = early(alloc)?;
    let rows = [
        (29, [1, 4, 6, 10, 2]),
        (29, [2, -3, 10, 7, 2]),
        (39, [1, 6, 6, 6, 1]),
        (39, [2, 10, 10, 10, 1]),
        (49, [2, 10, 10, 10, 1]),
        (59, [1, 1, 1, 1, 1]),
    ];
    assert!(rt; adds(alloc, &mut aggregate, first.as_slice(), 0, &rows, 1)?);
    let second = late(alloc)?;
    let rows = [
        (69, [1, 1, 9, 10, 2]),
        (79, [1, 1, 9, 10, 2]),
        (89, [1, 9, 9, 9, 1]),
        (119, [2, 7, 7, 7, 1]),
    ];
    assert!(rt; adds(alloc, &mut aggregate, second.as_slice(), 1, &rows, 1)?);
    let rows = [(129, [2, 7, 7, 7, 1]), (139, [2, 7, 7, 7, 1])];
    assert!(rt; adds(alloc, &mut aggregate, &[], 2, &rows, 0)?);
    Ok(())
}

#[test]
fn windows_of_no_whole_steps(rt: HostRuntime) -> Result<(), Fail> {
    let alloc = rt.alloc();
    let mut aggregate = Aggregate::new(alloc, 25, 10, Some(0), four(alloc)?, 60);
    let first = early(alloc)?;
    let rows = [
        (24, [1, 4, 6, 10, 2]),
        (24, [2, -3, -3, -3, 1]),
        (34, [1, 6, 6, 6, 1]),
        (34, [2, 10, 10, 10, 1]),
        (44, [2, 10, 10, 10, 1]),
    ];
    assert!(rt; adds(alloc, &mut aggregate, first.as_slice(), 0, &rows, 2)?);
    Ok(())
}

#[test]
fn empty_windows_are_passed_over(rt: HostRuntime) -> Result<(), Fail> {
    let alloc = rt.alloc();
    let aggs = Listed::from_vec(vec![in alloc; Agg::Count, Agg::Sum(0)]?);
    let mut aggregate = Aggregate::new(alloc, 4, 1, None, aggs, 1_000_000_000_000);
    let mut inputs = Vec::new(alloc);
    add(alloc, &mut inputs, 999_999_999_999, 8, 0)?;
    assert!(rt; fits_bucket(inputs.as_slice(), 1_000_000_000_000, 0));
    let Ok(rows) = aggregate.bucket(alloc, inputs.as_slice(), 0) else {
        return Ok(assert!(rt; false));
    };
    assert!(rt; is_row(&rows, 999_999_999_999, 1, 8));
    assert_eq!(rt; aggregate.cells().len(), 1);
    Ok(())
}
