//! The report of a run in frames.
#![tactic(auto)]

ghost use Rattle.std.specs.Prelude.{◌≡◌, ◌++◌, IfOk, OnOk};
ghost use Rattle.client_fold.specs.Folding.{StandForClients, all_taken};
ghost use Rattle.client_frames.specs.Framed.{frames_by, all_frames_by, report_frames};
ghost use Rattle.frame_lists.specs.Lists.{item_frames};
ghost use Rattle.world_model.specs.Worlds.{World};

use client_fold::client::Client;
use client_reports::text::summary;
use dpc_lists::faults::NoMemory;
use dpc_lists::shared::Shared;
use dpc_model::tuples::Item;
use frame_lists::writing::put_items;
use std::alloc::Global;
use stream_codec::encoding::{put_head, put_tail};

/// The frame of each item of these batches.
fn put_taken(bytes: &mut Vec<u8>, taken: &[Shared<Item>]) -> Result<(), NoMemory>
    ensures { OnOk result (bytes.new.items ≡ bytes.old.items ++ item_frames (all_taken taken.now)) }
{
    for items in taken.iter() {
        put_items(bytes, items.as_slice())?;
    }
    Ok(())
}

/// The frames of the client of this number.
fn put_client(bytes: &mut Vec<u8>, number: u64, client: &Client) -> Result<(), NoMemory>
    ensures { OnOk result (bytes.new.items ≡ bytes.old.items ++ frames_by number client.now) }
{
    put_head(bytes, number)?;
    put_taken(bytes, client.taken())?;
    let told = summary(client);
    put_tail(bytes, told.stable, told.bound, told.tentative)
}

/// For each client in order the frame of its number, one for each item that it took, and one for its summary. The only error is
/// want of memory.
pub fn report_frames(alloc: Global, clients: &[Client]) -> Result<Vec<u8>, NoMemory>
    ensures { IfOk result (λ bytes. (w : World) → StandForClients w.plan 0 clients.now w.clients
        → bytes.items ≡ report_frames w) }
{
    let mut bytes = Vec::new(alloc);
    for (number, client) in clients.iter().enumerate() {
        put_client(&mut bytes, number as u64, client)?;
    }
    Ok(bytes)
}
