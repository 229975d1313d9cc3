//! The client and the items that a recorded stream is.
ghost use Rattle.std.specs.Prelude.{◌≡◌, [], length};
ghost use Rattle.script_words.specs.Cursors.{lines_left};
ghost use Rattle.recorded_streams.specs.Streams as spec;

use crate::faults::StreamFault;
use crate::items::item_of;
use crate::openings::client_behind;
use dpc_model::plans::Plan;
use dpc_model::tuples::Item;
use frame_lists::faults::ListFault;
use frame_lists::reading::read_frames;
use frame_lists::sorts::Items;
use input_parts::first_line;
use script_words::lines::Lines;
use std::alloc::Global;

/// The items, where no line stands behind the last one.
fn concluded(items: Vec<Item>, mut lines: Lines<'_>) -> Result<Vec<Item>, StreamFault>
    ensures { spec.IsItems (spec.concluded items.items (lines_left lines.entry)) result }
{
    if lines.next().is_some() {
        return Err(StreamFault::NoItem(items.len() as u64));
    }
    Ok(items)
}

/// The items that lines are up to the last one.
fn items_of_lines(alloc: Global, passing: bool, lines: Lines<'_>) -> Result<Vec<Item>, StreamFault>
    ensures { spec.IsItems (spec.items_of_lines passing [] (lines_left lines.entry)) result }
{
    let mut lines = lines;
    let mut items = Vec::new(alloc);
    while let Some(line) = lines.next() {
        if line == b"stream end".as_slice() {
            return concluded(items, lines);
        }
        let Some(item) = item_of(alloc, passing, line)? else {
            return Err(StreamFault::NoItem(items.len() as u64));
        };
        let Ok(()) = items.push(item) else {
            return Err(StreamFault::NoMemory);
        };
    }
    Err(StreamFault::NoItem(items.len() as u64))
}

/// The client's number, and the items, that the lines of a recorded stream are for a plan: `stream` and the client's name, a line for
/// each item as in a report, and `stream end`. Or how many items stand in front of the first line that may not stand where it stands.
/// It is linear in the text, and takes memory for the items alone.
pub fn read_stream(alloc: Global, plan: &Plan, text: &[u8]) -> Result<(u64, Vec<Item>), StreamFault>
    ensures { spec.IsStream (spec.stream_of plan.now text.now) result }
{
    let mut lines = Lines::of(text);
    let Some(line) = lines.next() else {
        return Err(StreamFault::NoItem(0));
    };
    let Some(client) = client_behind(b"stream ", plan, line) else {
        return Err(StreamFault::NoItem(0));
    };
    Ok((client, items_of_lines(alloc, plan.passing, lines)?))
}

/// The same of a recorded stream in frames: the line `frames` and the client's name, and the frame of each item to the end of the bytes.
pub fn read_stream_frames(
    alloc: Global,
    plan: &Plan,
    bytes: &[u8],
) -> Result<(u64, Vec<Item>), StreamFault>
    ensures { spec.IsStream (spec.framed_stream_of plan.now bytes.now) result }
{
    let (line, frames) = first_line(bytes);
    let Some(client) = client_behind(b"frames ", plan, line) else {
        return Err(StreamFault::NoItem(0));
    };
    let items = Items {
        passing: plan.passing,
    };
    match read_frames(alloc, &items, frames) {
        Ok(items) => Ok((client, items)),
        Err(ListFault::NoMemory) => Err(StreamFault::NoMemory),
        Err(ListFault::NoFrame(count)) => Err(StreamFault::NoItem(count)),
    }
}
