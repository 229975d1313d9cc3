//! The pieces of a snapshot, each put behind what a buffer has.
ghost use Rattle.std.specs.Prelude.{◌≡◌, ◌<◌, ◌+◌, ◌*◌, ◌^◌, ◌++◌, ℕ, List, length, take, drop, flat_map, slice_index_or, OnOk};
ghost use Rattle.std.specs.Int.{w64, cast_unsigned};
ghost use Rattle.byteorder.specs.Endian.{big_bytes};
ghost use Rattle.ops_window.specs.Saving.{saved_of, all_saved};
ghost use Rattle.fragment_mill.specs.Views.{shown};
ghost use Rattle.snapshot_form.specs.Bytes.{tuples_bytes, list_bytes, total_bytes, cell_bytes, part_bytes, head_bytes, snapshot_bytes};
ghost use Rattle.snapshot_form.specs.Pieces.{pieces_of, piece_size, parts_before_last};

use dpc_lists::faults::NoMemory;
use dpc_model::tuples::Tuple;
use fragment_mill::views::KeptView;
use ops_window::cell_map::Cells;
use pipeline::snapshots::Snapshot;
use std::collections::VecDeque;
use stream_codec::encoding::put_tuple;

/// How many kept tuples stand in a piece.
const PIECE_SIZE: usize = 512;

/// Eight bytes.
fn put_number(buf: &mut Vec<u8>, number: u64) -> Result<(), NoMemory>
    ensures { OnOk result (buf.new.items ≡ buf.old.items ++ big_bytes 8 number) }
{
    buf.extend_from_slice(&number.to_be_bytes())?;
    Ok(())
}

/// The lowest four bytes of a count.
fn put_count(buf: &mut Vec<u8>, count: usize) -> Result<(), NoMemory>
    ensures { OnOk result (buf.new.items ≡ buf.old.items ++ big_bytes 4 count) }
{
    let all = (count as u64).to_be_bytes();
    buf.extend_from_slice(&all[4..])?;
    Ok(())
}

/// Eight bytes, two's complement.
fn put_signed(buf: &mut Vec<u8>, number: &i64) -> Result<(), NoMemory>
    ensures { OnOk result (buf.new.items ≡ buf.old.items ++ big_bytes 8 (cast_unsigned w64 number.now)) }
{
    put_number(buf, number.cast_unsigned())?;
    Ok(())
}

/// Sixteen bytes.
fn put_wide(buf: &mut Vec<u8>, bits: u128) -> Result<(), NoMemory>
    ensures { OnOk result (buf.new.items ≡ buf.old.items ++ big_bytes 16 bits) }
{
    buf.extend_from_slice(&bits.to_be_bytes())?;
    Ok(())
}

/// Sixteen bytes, two's complement.
fn put_total(buf: &mut Vec<u8>, total: &i128) -> Result<(), NoMemory>
    ensures { OnOk result (buf.new.items ≡ buf.old.items ++ total_bytes total.now) }
{
    put_wide(buf, total.cast_unsigned())?;
    Ok(())
}

/// Each total.
fn put_totals(buf: &mut Vec<u8>, totals: &[i128]) -> Result<(), NoMemory>
    ensures { OnOk result (buf.new.items ≡ buf.old.items ++ flat_map total_bytes totals.now) }
{
    for total in totals {
        put_total(buf, total)?;
    }
    Ok(())
}

/// The tuples, without a count in front.
fn put_tuples(buf: &mut Vec<u8>, tuples: &[Tuple]) -> Result<(), NoMemory>
    ensures { OnOk result (buf.new.items ≡ buf.old.items ++ tuples_bytes tuples.now) }
{
    for tuple in tuples {
        put_tuple(buf, tuple)?;
    }
    Ok(())
}

/// One side of a join.
fn put_side(buf: &mut Vec<u8>, tuples: &VecDeque<Tuple>) -> Result<(), NoMemory>
    ensures { OnOk result (buf.new.items ≡ buf.old.items ++ list_bytes tuples.now.items) }
{
    put_count(buf, tuples.len())?;
    let (front, back) = tuples.as_slices();
    put_tuples(buf, front)?;
    put_tuples(buf, back)?;
    Ok(())
}

/// One cell.
fn put_cell(buf: &mut Vec<u8>, key: (u64, i64), totals: &[i128]) -> Result<(), NoMemory>
    ensures { OnOk result (buf.new.items ≡ buf.old.items ++ cell_bytes (saved_of (key, totals.now))) }
{
    put_number(buf, key.0)?;
    put_signed(buf, &key.1)?;
    put_totals(buf, totals)?;
    Ok(())
}

/// The cells, without a count in front.
fn put_cells(buf: &mut Vec<u8>, cells: &Cells) -> Result<(), NoMemory>
    ensures { OnOk result (buf.new.items ≡ buf.old.items ++ flat_map cell_bytes (all_saved cells.now)) }
{
    for (key, totals) in cells.iter() {
        put_cell(buf, key, totals.as_slice())?;
    }
    Ok(())
}

/// What an operator keeps. The bound makes the count of cells exact, which stops at the greatest `usize`.
fn put_part(buf: &mut Vec<u8>, view: KeptView<'_>) -> Result<(), NoMemory>
    requires { length (part_bytes (shown view)) < 2 ^ 63 }
    ensures { OnOk result (buf.new.items ≡ buf.old.items ++ part_bytes (shown view.entry)) }
{
    match view {
        KeptView::Plain => {
            buf.push(0)?;
            Ok(())
        }
        KeptView::Join(left, right) => {
            buf.push(1)?;
            put_side(buf, left)?;
            put_side(buf, right)?;
            Ok(())
        }
        KeptView::Aggregate(cells) => {
            buf.push(2)?;
            put_count(buf, cells.len())?;
            put_cells(buf, cells)?;
            Ok(())
        }
    }
}

/// Each number.
fn put_numbers(buf: &mut Vec<u8>, numbers: &[u64]) -> Result<(), NoMemory>
    ensures { OnOk result (buf.new.items ≡ buf.old.items ++ flat_map (big_bytes 8) numbers.now) }
{
    for number in numbers {
        put_number(buf, *number)?;
    }
    Ok(())
}

/// The head, with the count of the kept tuples behind it.
fn put_head(buf: &mut Vec<u8>, snapshot: &Snapshot) -> Result<(), NoMemory>
    ensures { OnOk result (buf.new.items ≡ buf.old.items ++ head_bytes snapshot.now ++ big_bytes 4 (length snapshot.now.kept)) }
{
    let counts = snapshot.counts.as_slice();
    put_number(buf, snapshot.cursor)?;
    put_count(buf, counts.len())?;
    put_numbers(buf, counts)?;
    put_number(buf, snapshot.base)?;
    put_count(buf, snapshot.kept_count())?;
    Ok(())
}

/// How many pieces the kept tuples stand in: where there are none, one that is empty.
pub(crate) fn count_kept_pieces(count: usize) -> u64
    ensures { result ≡ parts_before_last count + 1 }
{
    (count.saturating_sub(1) / PIECE_SIZE) as u64 + 1
}

/// The tuples of a piece.
fn part(tuples: &[Tuple], number: usize) -> &[Tuple]
    requires { piece_size * number < length tuples.now + 1 }
    ensures { result.now ≡ take piece_size (drop (piece_size * number) tuples.now) }
{
    let rest = tuples.split_at(PIECE_SIZE * number).1;
    rest.split_at(rest.len().min(PIECE_SIZE)).0
}

/// The piece of a number: 0 is the head, behind it come the kept tuples, and then what each operator keeps.
pub(crate) fn put_piece(buf: &mut Vec<u8>, snapshot: &Snapshot, number: u64) -> Result<(), NoMemory>
    requires there { number < length (pieces_of snapshot.now) }
    requires short { length (snapshot_bytes snapshot.now) < 2 ^ 63 }
    ensures { OnOk result ((other : List ℕ) → buf.new.items ≡ buf.old.items ++ slice_index_or (pieces_of snapshot.now) number other) }
{
    if number == 0 {
        put_head(buf, snapshot)?;
        return Ok(());
    }
    let place = number - 1;
    let kept = count_kept_pieces(snapshot.kept_count());
    if place < kept {
        put_tuples(buf, part(snapshot.kept(), place as usize))?;
        return Ok(());
    }
    put_part(buf, snapshot.mill().kept((place - kept) as usize))?;
    Ok(())
}
