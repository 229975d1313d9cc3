//! Windows that are joined from their panes.
ghost use Rattle.std.specs.Prelude.{◌≡◌, ◌*◌, ◌%◌, ◌<◌, ◌≤◌, ◌++◌, OnOk};
ghost use Rattle.std.specs.List.{fold};
ghost use Rattle.dpc_model.specs.Operators.{window_count};
ghost use Rattle.ops_window.specs.Feeding.{join_cell, cells_before, cells_behind, next_window, pane_rows_of};

use crate::cell_map::Cells;
use crate::cells::{Shape, ended_count};
use dpc_lists::faults::NoMemory;
use dpc_model::operators::Agg;
use dpc_model::tuples::Tuple;
use std::alloc::Global;

/// Joins the first cells, as far as they begin below a time, into those of the window that begins at
/// another.
fn join_before(
    alloc: Global,
    window: &mut Cells,
    aggs: &[Agg],
    cells: &Cells,
    begin: u64,
    end: u64,
) -> Result<(), NoMemory>
    ensures { OnOk result (window.new ≡ fold (join_cell aggs.now begin) window.old (cells_before end cells.now)) }
{
    for (key, totals) in cells.iter() {
        if end <= key.0 {
            return Ok(());
        }
        window.join_in(alloc, aggs, (begin, key.1), totals.as_slice())?;
    }
    Ok(())
}

impl Shape {
    /// The first window from a number on, below another, that has a cell among these.
    fn next_window(&self, cells: &Cells, number: u64, behind: u64) -> Option<u64>
        requires step { 0 < self.now.step }
        requires size { self.now.step ≤ self.now.size }
        ensures { result ≡ next_window self.now.size self.now.step number behind cells.now }
    {
        let (key, _) = cells.iter().next()?;
        let others = self.size / self.step - 1;
        let next = number.max((key.0 / self.step).saturating_sub(others));
        if next < behind { Some(next) } else { None }
    }

    /// Adds the rows of the windows from a number on that end at or below a time, and takes the panes
    /// out that no later window needs. A window is its first pane with the others joined in. Windows
    /// without a tuple are passed over together.
    pub(crate) fn take_windows(
        &self,
        alloc: Global,
        cells: &mut Cells,
        first: u64,
        end: u64,
        rows: &mut Vec<Tuple>,
    ) -> Result<(), NoMemory>
        requires size { 0 < self.now.size }
        requires step { 0 < self.now.step }
        requires whole { self.now.size % self.now.step ≡ 0 }
        requires first { first ≤ window_count self.now.size self.now.step end }
        ensures rows { OnOk result (rows.new.items ≡ rows.old.items ++ pane_rows_of self.now first end cells.old) }
        ensures cells { OnOk result (cells.new
            ≡ cells_behind (window_count self.now.size self.now.step end * self.now.step) cells.old) }
    {
        let behind = ended_count(self.size, self.step, end);
        let mut number = first;
        cells.take_before(alloc, first * self.step)?;
        'windows: while let Some(next) = self.next_window(cells, number, behind) {
            let begin = next * self.step;
            let mut window = cells.take_before(alloc, begin + self.step)?;
            let aggs = self.aggs.as_slice();
            join_before(alloc, &mut window, aggs, cells, begin, begin + self.size)?;
            self.ended_rows(alloc, &window, end, rows)?;
            number = next + 1;
        }
        cells.take_before(alloc, behind * self.step)?;
        Ok(())
    }
}
