//! How many bytes a snapshot has, without writing them. A count stops at the greatest `u64`.
ghost use Rattle.std.specs.Prelude.{◌≡◌, length, flat_map};
ghost use Rattle.ops_window.specs.Saving.{all_saved};
ghost use Rattle.fragment_mill.specs.States.{parts_of};
ghost use Rattle.fragment_mill.specs.Views.{shown};
ghost use Rattle.snapshot_form.specs.Bytes.{tuples_bytes, list_bytes, cell_bytes, part_bytes, parts_bytes, snapshot_bytes};
ghost use Rattle.snapshot_writer.specs.Counts.{capped};

use dpc_model::tuples::Tuple;
use fragment_mill::mill::FragMill;
use fragment_mill::views::KeptView;
use ops_window::cell_map::Cells;
use pipeline::snapshots::Snapshot;
use std::collections::VecDeque;
use stream_codec::encoding::tuple_length;

/// The bytes of tuples, without a count in front.
fn count_tuples(tuples: &[Tuple]) -> u64
    ensures { result ≡ capped (length (tuples_bytes tuples.now)) }
{
    let mut count: u64 = 0;
    for tuple in tuples {
        count = count.saturating_add(tuple_length(tuple));
    }
    count
}

/// The bytes of one side of a join.
fn count_side(tuples: &VecDeque<Tuple>) -> u64
    ensures { result ≡ capped (length (list_bytes tuples.now.items)) }
{
    let (front, back) = tuples.as_slices();
    let count = count_tuples(front).saturating_add(count_tuples(back));
    count.saturating_add(4)
}

/// The bytes of cells, without a count in front.
fn count_cells(cells: &Cells) -> u64
    ensures { result ≡ capped (length (flat_map cell_bytes (all_saved cells.now))) }
{
    let mut count: u64 = 0;
    for (_, totals) in cells.iter() {
        let width = 16 + 16 * totals.as_slice().len();
        count = count.saturating_add(width as u64);
    }
    count
}

/// The bytes of what an operator keeps.
fn count_part(view: KeptView<'_>) -> u64
    ensures { result ≡ capped (length (part_bytes (shown view.entry))) }
{
    match view {
        KeptView::Plain => 1,
        KeptView::Join(left, right) => {
            let count = count_side(left).saturating_add(count_side(right));
            count.saturating_add(1)
        }
        KeptView::Aggregate(cells) => count_cells(cells).saturating_add(5),
    }
}

/// The bytes of what all operators keep.
fn count_parts(mill: &FragMill) -> u64
    ensures { result ≡ capped (length (parts_bytes (parts_of mill.now).operators)) }
{
    let mut count: u64 = 0;
    for i in 0..mill.operator_count() {
        count = count.saturating_add(count_part(mill.kept(i)));
    }
    count
}

/// All bytes of a snapshot.
#[tactic(auto, unfolding(snapshot_form::specs::Bytes::snapshot_bytes))]
pub(crate) fn count_snapshot(snapshot: &Snapshot) -> u64
    ensures { result ≡ capped (length (snapshot_bytes snapshot.now)) }
{
    let head = 24 + 8 * snapshot.counts.as_slice().len();
    let count = count_tuples(snapshot.kept()).saturating_add(count_parts(snapshot.mill()));
    count.saturating_add(head as u64)
}
