//! The cells of an aggregate as plain data.
ghost use Rattle.std.specs.Prelude.{◌≡◌, ◌<◌, IfOk, OnOk};
ghost use Rattle.std.specs.List.Sorted.{IsStrictlySortedBy};
ghost use Rattle.std.specs.Map.{keys_of};
ghost use Rattle.ops_window.specs.Feeding.{cell_cmp, join_cell};
ghost use Rattle.ops_window.specs.Saving.{can_be_group as may_be_group, can_wait as may_wait, can_all_wait as may_all_wait, stands_behind as is_behind, kept_of, all_kept, saved_of, all_saved};

use crate::cell_map::Cells;
use dpc_lists::faults::NoMemory;
use dpc_lists::lists::Listed;
use dpc_model::operators::Agg;
use std::alloc::{AllocError, Global};

/// The totals of one group in one pane or window, one for each aggregate.
#[derive(Drop)]
pub struct Cell {
    /// Where the pane or window begins.
    pub begin: u64,
    /// The group: 0 where there is no group column.
    pub group: i64,
    /// Before a sum becomes the nearest value of i64.
    pub totals: Listed<i128>,
}

/// Whether a group may be: 0 alone where there is no group column.
fn can_be_group(column: Option<u64>, group: i64) -> bool
    ensures { result ≡ may_be_group column group }
{
    match column {
        None => group == 0,
        Some(_) => true,
    }
}

/// Whether a key stands behind that of the cell before, if there is one.
fn stands_behind(last: Option<(u64, i64)>, begin: u64, group: i64) -> bool
    ensures { result ≡ is_behind last (begin, group) }
{
    match last {
        None => true,
        Some((before, other)) => before < begin || (before == begin && other < group),
    }
}

/// Whether a cell is of a pane or window that is needed where the next bucket begins at `end`, and has a
/// total for each of so many aggregates.
fn can_wait(size: u64, step: u64, column: Option<u64>, aggs: &[Agg], end: u128, cell: &Cell) -> bool
    requires { 0 < step }
    ensures { result ≡ may_wait size step column aggs.now end cell.now }
{
    let begin = u128::from(cell.begin);
    let needed = cell.begin % step == 0 && begin < end && end < begin + u128::from(size);
    needed && can_be_group(column, cell.group) && cell.totals.len() == aggs.len()
}

/// Whether an aggregate may hold these cells where the next bucket begins at `end`: they are in strict
/// order of begin and group, each is of a pane or window that is needed then, and has a total for each
/// aggregate. `end` may pass 2^64, where only a cell waits whose window reaches there. What the totals are
/// is not looked at. It takes no memory.
pub fn can_all_wait(
    size: u64,
    step: u64,
    column: Option<u64>,
    aggs: &[Agg],
    end: u128,
    cells: &[Cell],
) -> bool
    requires { 0 < step }
    ensures { result ≡ may_all_wait size step column aggs.now end cells.now }
{
    let mut last = None;
    for cell in cells {
        if !stands_behind(last, cell.begin, cell.group) {
            return false;
        }
        if !can_wait(size, step, column, aggs, end, cell) {
            return false;
        }
        last = Some((cell.begin, cell.group));
    }
    true
}

/// A cell as it is saved.
fn saved_cell(alloc: Global, key: (u64, i64), totals: &[i128]) -> Result<Cell, AllocError>
    ensures { IfOk result (λ cell. cell ≡ saved_of (key, totals.now)) }
{
    let (begin, group) = key;
    let totals = Listed::from_vec(Vec::from_slice(alloc, totals)?);
    Ok(Cell {
        begin,
        group,
        totals,
    })
}

impl Cells {
    /// Puts a cell among the others, of which none has its begin and group.
    fn put(&mut self, alloc: Global, aggs: &[Agg], cell: &Cell) -> Result<(), NoMemory>
        ensures { OnOk result (self.new ≡ join_cell aggs.now cell.now.begin self.old (kept_of cell.now)) }
    {
        let key = (cell.begin, cell.group);
        self.join_in(alloc, aggs, key, cell.totals.as_slice())
    }

    /// The cells of this list, which is in strict order.
    pub(crate) fn from_saved(alloc: Global, aggs: &[Agg], saved: &[Cell]) -> Result<Cells, NoMemory>
        requires { IsStrictlySortedBy cell_cmp (keys_of (all_kept saved.now)) }
        ensures { IfOk result (λ cells. cells ≡ all_kept saved.now) }
    {
        let mut cells = Cells::new(alloc);
        for cell in saved {
            cells.put(alloc, aggs, cell)?;
        }
        Ok(cells)
    }

    /// The cells in order, as they are saved.
    pub fn saved(&self, alloc: Global) -> Result<Listed<Cell>, NoMemory>
        ensures { IfOk result (λ saved. saved ≡ all_saved self.now) }
    {
        let mut saved = Vec::with_capacity(alloc, self.len())?;
        for (key, totals) in self.iter() {
            saved.push(saved_cell(alloc, key, totals.as_slice())?)?;
        }
        Ok(Listed::from_vec(saved))
    }
}
