//! Lists of frames, written.
ghost use Rattle.std.specs.Prelude.{◌≡◌, ◌++◌, OnOk, IfOk};
ghost use Rattle.frame_lists.specs.Lists.{entry_frames, item_frames};

use dpc_lists::faults::NoMemory;
use dpc_model::messages::Event;
use dpc_model::tuples::Item;
use std::alloc::Global;
use stream_codec::encoding::{put_entry, put_item};

/// Appends the frames of a journal's entries.
pub fn put_entries(bytes: &mut Vec<u8>, events: &[Event]) -> Result<(), NoMemory>
    ensures { OnOk result (bytes.new.items ≡ bytes.old.items ++ entry_frames events.now) }
{
    for event in events {
        put_entry(bytes, *event)?;
    }
    Ok(())
}

/// Appends the frames of items.
pub fn put_items(bytes: &mut Vec<u8>, items: &[Item]) -> Result<(), NoMemory>
    ensures { OnOk result (bytes.new.items ≡ bytes.old.items ++ item_frames items.now) }
{
    for item in items {
        put_item(bytes, item)?;
    }
    Ok(())
}

/// The entries of a journal as frames, one behind another. The only error is want of memory.
pub fn journal_frames(alloc: Global, events: &[Event]) -> Result<Vec<u8>, NoMemory>
    ensures { IfOk result (λ bytes. bytes.items ≡ entry_frames events.now) }
{
    let mut bytes = Vec::new(alloc);
    put_entries(&mut bytes, events)?;
    Ok(bytes)
}
