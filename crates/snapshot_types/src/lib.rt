//! That the numbers of a snapshot are in the ranges of their types.
//!
//! Of a number in a list contracts know its type's range only once code has read it. So each number is read here once;
//! nothing is done with it.
#![tactic(auto)]

ghost use Rattle.std.specs.Prelude.{◌≡◌, ◌<◌, ◌^◌, true, All, FitsSigned};
ghost use Rattle.std.specs.Int.{w128};
ghost use Rattle.dpc_lists.specs.Lists.{list_all};
ghost use Rattle.stream_codec.specs.Frames.{is_i64};
ghost use Rattle.ops_window.specs.Saving.{all_saved};
ghost use Rattle.fragment_mill.specs.Milling.{IsReady};
ghost use Rattle.fragment_mill.specs.States.{parts_of};
ghost use Rattle.fragment_mill.specs.Views.{shown};
ghost use Rattle.snapshot_form.specs.Savable.{IsCell};
ghost use Rattle.law_saves.specs.Typed.{has_values, HasNumbers, IsTyped};

use dpc_model::tuples::Tuple;
use fragment_mill::mill::FragMill;
use fragment_mill::views::KeptView;
use ops_window::cell_map::Cells;
use pipeline::snapshots::Snapshot;
use std::collections::VecDeque;

fn values_fit(values: &[i64])
    ensures { list_all is_i64 values.now ≡ true }
{
    for value in values {
        let _read = *value;
    }
}

fn tuples_fit(tuples: &[Tuple])
    ensures { list_all has_values tuples.now ≡ true }
{
    for tuple in tuples {
        values_fit(tuple.vals.as_slice());
    }
}

fn side_fits(tuples: &VecDeque<Tuple>)
    ensures { list_all has_values tuples.now.items ≡ true }
{
    for i in 0..tuples.len() {
        values_fit(tuples[i].vals.as_slice());
    }
}

fn number_fits(number: u64)
    ensures { number < 2 ^ 64 }
{}

fn counts_fit(counts: &[u64])
    ensures { All (λ n. n < 2 ^ 64) counts.now }
{
    for count in counts {
        let _read = *count;
    }
}

fn totals_fit(totals: &[i128])
    ensures { All (FitsSigned w128) totals.now }
{
    for total in totals {
        let _read = *total;
    }
}

fn cells_fit(cells: &Cells)
    ensures { All IsCell (all_saved cells.now) }
{
    for (key, totals) in cells.iter() {
        let (_begin, _group) = key;
        totals_fit(totals.as_slice());
    }
}

fn part_fits(part: KeptView<'_>)
    ensures { HasNumbers (shown part.entry) }
{
    match part {
        KeptView::Plain => {}
        KeptView::Join(left, right) => {
            side_fits(left);
            side_fits(right);
        }
        KeptView::Aggregate(cells) => cells_fit(cells),
    }
}

fn mill_fits(mill: &FragMill)
    ensures operators { All HasNumbers (parts_of mill.now).operators }
    ensures ready { IsReady mill.now }
{
    let _width = mill.width();
    for i in 0..mill.operator_count() {
        part_fits(mill.kept(i));
    }
}

/// Reads each number of a snapshot. It takes no memory.
pub fn numbers_fit(snapshot: &Snapshot)
    ensures { IsTyped snapshot.now }
{
    number_fits(snapshot.cursor);
    counts_fit(snapshot.counts.as_slice());
    tuples_fit(snapshot.kept());
    mill_fits(snapshot.mill());
}
