//! Tuples are taken into the cells of panes or windows, and cells of windows that end become rows.
ghost use Rattle.std.specs.Prelude.{◌≡◌, ◌↔◌, ◌+◌, ◌^◌, ◌<◌, ◌≤◌, ◌++◌, IfOk, OnOk, IsTrue, map, All};
ghost use Rattle.dpc_model.specs.Operators.{window_count};
ghost use Rattle.dpc_model.specs.declared.tuples.Tagged.{Tagged};
ghost use Rattle.ops_window.specs.Windows.{reach};
ghost use Rattle.ops_window.specs.Feeding.{take_tuple, fed_cells, row_of, ended_cells, kept_cells, ended_rows_of, left_cells};

use crate::cell_map::Cells;
use crate::totals::{finished, group_of};
use dpc_lists::exact::Exact;
use dpc_lists::faults::NoMemory;
use dpc_lists::lists::Listed;
use dpc_model::operators::Agg;
use dpc_model::tuples::{Tagged, Tuple, Tuples, Vals};
use std::alloc::{AllocError, Global};

/// The windows, and what is counted in each.
#[derive(Drop)]
pub(crate) struct Shape {
    pub(crate) size: u64,
    /// From one window's begin to the next.
    pub(crate) step: u64,
    /// The group's column.
    pub(crate) group: Option<u64>,
    pub(crate) aggs: Listed<Agg>,
}

impl Exact for Shape {
    fn copy(&self, alloc: Global) -> Result<Shape, AllocError> {
        let aggs = self.aggs.copy(alloc)?;
        Ok(Shape {
            size: self.size,
            step: self.step,
            group: self.group,
            aggs,
        })
    }

    fn same(&self, other: &Shape) -> bool {
        self.size == other.size
            && self.step == other.step
            && self.group.same(&other.group)
            && self.aggs.same(&other.aggs)
    }
}

/// How many windows of a size, one every step, end at or below a time.
pub(crate) fn ended_count(size: u64, step: u64, time: u64) -> u64
    requires size { 0 < size }
    requires step { 0 < step }
    ensures { result ≡ window_count size step time }
{
    if time < size {
        0
    } else {
        (time - size) / step + 1
    }
}

impl Shape {
    /// How far a cell reaches.
    fn reach(&self) -> u64
        requires step { 0 < self.now.step }
        ensures { result ≡ reach self.now.size self.now.step }
    {
        if self.size % self.step == 0 {
            self.step
        } else {
            self.size
        }
    }

    /// Takes a tuple into the cells in which it lies, where cells reach so far.
    fn take_tuple(
        &self,
        alloc: Global,
        cells: &mut Cells,
        reach: u64,
        tuple: &Tuple,
    ) -> Result<(), NoMemory>
        requires reach { 0 < reach }
        requires step { 0 < self.now.step }
        requires time { tuple.now.stime + 1 < 2 ^ 64 }
        ensures { OnOk result (cells.new
            ≡ take_tuple reach self.now.step self.now.group self.now.aggs cells.old tuple.now) }
    {
        let group = group_of(self.group, tuple);
        let first = ended_count(reach, self.step, tuple.stime);
        let behind = tuple.stime / self.step + 1;
        for number in first..behind {
            let key = (number * self.step, group);
            cells.take_in(alloc, self.aggs.as_slice(), tuple, key)?;
        }
        Ok(())
    }

    /// Takes the tuples of port 0 into the cells in which they lie.
    fn take_inputs(
        &self,
        alloc: Global,
        cells: &mut Cells,
        inputs: &[Tagged],
    ) -> Result<(), NoMemory>
        requires size { 0 < self.now.size }
        requires step { 0 < self.now.step }
        requires times { All (λ (x : Tagged). x.tuple.stime + 1 < 2 ^ 64) inputs.now }
        ensures { OnOk result (cells.new ≡ fed_cells self.now cells.old inputs.now) }
    {
        let reach = self.reach();
        for x in inputs {
            if x.port == 0 {
                self.take_tuple(alloc, cells, reach, &x.tuple)?;
            }
        }
        Ok(())
    }

    /// Whether the window that begins at a time ends at or below another.
    fn has_ended(&self, begin: u64, end: u64) -> bool
        ensures { IsTrue result ↔ (begin + self.now.size ≤ end) }
    {
        begin <= end && self.size <= end - begin
    }

    /// A cell's row. The error says that a count or the like does not fit i64.
    fn row(&self, alloc: Global, key: (u64, i64), totals: &[i128]) -> Result<Tuple, NoMemory>
        requires size { 0 < self.now.size }
        requires end { key.0 + self.now.size ≤ 2 ^ 64 }
        ensures { IfOk result (λ row. row ≡ row_of self.now (key, totals.now)) }
    {
        let (begin, group) = key;
        let aggs = self.aggs.as_slice();
        let mut vals = Vals::with_capacity(alloc, aggs.len().saturating_add(1))?;
        if self.group.is_some() {
            vals.push(group)?;
        }
        for i in 0..aggs.len().min(totals.len()) {
            vals.push(finished(aggs[i], totals[i])?)?;
        }
        Ok(Tuple {
            stime: begin + (self.size - 1),
            vals,
        })
    }

    /// Adds the rows of the first cells, as far as their windows end at or below a time.
    pub(crate) fn ended_rows(
        &self,
        alloc: Global,
        cells: &Cells,
        end: u64,
        rows: &mut Vec<Tuple>,
    ) -> Result<(), NoMemory>
        requires { 0 < self.now.size }
        ensures { OnOk result (rows.new.items ≡ rows.old.items ++ map (row_of self.now) (ended_cells self.now.size end cells.now)) }
    {
        for (key, totals) in cells.iter() {
            if !self.has_ended(key.0, end) {
                return Ok(());
            }
            rows.push(self.row(alloc, key, totals.as_slice())?)?;
        }
        Ok(())
    }

    /// Adds the rows of the cells whose windows end at or below a time, and takes those cells out.
    fn take_ended(
        &self,
        alloc: Global,
        cells: &mut Cells,
        end: u64,
        rows: &mut Vec<Tuple>,
    ) -> Result<(), NoMemory>
        requires { 0 < self.now.size }
        ensures rows { OnOk result (rows.new.items
            ≡ rows.old.items ++ map (row_of self.now) (ended_cells self.now.size end cells.old)) }
        ensures cells { OnOk result (cells.new ≡ kept_cells self.now.size end cells.old) }
    {
        let ended = cells.take_before(alloc, end.saturating_sub(self.size - 1))?;
        self.ended_rows(alloc, &ended, end, rows)?;
        Ok(())
    }

    /// Gives the rows of the windows that end above a time and at or below another, and lets the cells
    /// go that no later window needs.
    fn take_rows(
        &self,
        alloc: Global,
        cells: &mut Cells,
        begin: u64,
        end: u64,
    ) -> Result<Tuples, NoMemory>
        requires size { 0 < self.now.size }
        requires step { 0 < self.now.step }
        requires order { begin ≤ end }
        ensures rows { IfOk result (λ rows. rows ≡ ended_rows_of self.now begin end cells.old) }
        ensures cells { OnOk result (cells.new ≡ left_cells self.now.size self.now.step end cells.old) }
    {
        let mut rows = Vec::new(alloc);
        if self.reach() == self.size {
            self.take_ended(alloc, cells, end, &mut rows)?;
        } else {
            let first = ended_count(self.size, self.step, begin);
            self.take_windows(alloc, cells, first, end, &mut rows)?;
        }
        Ok(Listed::from_vec(rows))
    }

    /// Takes the inputs of a bucket in, and gives the rows of the windows that end by its end.
    pub(crate) fn take_bucket(
        &self,
        alloc: Global,
        cells: &mut Cells,
        inputs: &[Tagged],
        begin: u64,
        end: u64,
    ) -> Result<Tuples, NoMemory>
        requires size { 0 < self.now.size }
        requires step { 0 < self.now.step }
        requires order { begin ≤ end }
        requires times { All (λ (x : Tagged). x.tuple.stime + 1 < 2 ^ 64) inputs.now }
        ensures rows { IfOk result (λ rows. rows ≡ ended_rows_of self.now begin end (fed_cells self.now cells.old inputs.now)) }
        ensures cells { OnOk result (cells.new
            ≡ left_cells self.now.size self.now.step end (fed_cells self.now cells.old inputs.now)) }
    {
        self.take_inputs(alloc, cells, inputs)?;
        self.take_rows(alloc, cells, begin, end)
    }
}
