//! What stands in bytes one behind another.
ghost use Rattle.std.specs.Prelude.{◌≡◌, ℕ, List, Option};
ghost use Rattle.snapshot_form.specs.Reading.{number_at, tuple_at, total_at, cell_at};
ghost use Rattle.snapshot_reader.specs.Told.{IsRead};

use crate::bytes::Bytes;
use crate::faults::ReadFault;
use dpc_model::tuples::Tuple;
use ops_window::saved::Cell;
use std::alloc::Global;

/// What can stand in front of bytes.
pub(crate) trait Form<T> {
    ghost at: { Self → List ℕ → Option (T × List ℕ) };

    /// What stands there.
    fn read(&self, alloc: Global, bytes: &mut Bytes<'_>) -> Result<T, ReadFault>
        ensures { IsRead (at self.now bytes.old) result bytes.new };
}

/// Numbers of eight bytes.
#[derive(Clone, Copy)]
pub(crate) struct Numbers;

impl Form<u64> for Numbers {
    ghost at = { λ _. number_at 8 };

    fn read(&self, _alloc: Global, bytes: &mut Bytes<'_>) -> Result<u64, ReadFault> {
        bytes.number()
    }
}

/// Totals of aggregates.
#[derive(Clone, Copy)]
pub(crate) struct Totals;

impl Form<i128> for Totals {
    ghost at = { λ _. total_at };

    fn read(&self, _alloc: Global, bytes: &mut Bytes<'_>) -> Result<i128, ReadFault> {
        bytes.total()
    }
}

/// Frames of tuples.
#[derive(Clone, Copy)]
pub(crate) struct Frames;

impl Form<Tuple> for Frames {
    ghost at = { λ _. tuple_at };

    fn read(&self, alloc: Global, bytes: &mut Bytes<'_>) -> Result<Tuple, ReadFault> {
        bytes.tuple(alloc)
    }
}

/// Cells of an aggregate, with so many totals each.
#[derive(Clone, Copy)]
pub(crate) struct Cells {
    pub(crate) totals: usize,
}

impl Form<Cell> for Cells {
    ghost at = { λ cells. cell_at cells.totals };

    fn read(&self, alloc: Global, bytes: &mut Bytes<'_>) -> Result<Cell, ReadFault> {
        let begin = bytes.number()?;
        let group = bytes.number()?.cast_signed();
        let totals = bytes.many(alloc, &Totals, self.totals)?;
        Ok(Cell {
            begin,
            group,
            totals,
        })
    }
}
