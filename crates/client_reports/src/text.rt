//! The text reports.
ghost use Rattle.std.specs.Prelude.{◌≡◌, ◌++◌, flat_map, map, OnOk, IfOk};
ghost use Rattle.dpc_model.specs.Words.{text_of};
ghost use Rattle.client_fold.specs.Folding.{StandForClients, all_taken};
ghost use Rattle.client_reports.specs.Telling.{named, summary_by, text_by, short_by};
ghost use Rattle.report.specs.Text.{item_words, report_text, report_short};
ghost use Rattle.world_model.specs.Worlds.{World};

use client_fold::client::Client;
use dpc_lists::faults::NoMemory;
use dpc_lists::shared::Shared;
use dpc_model::plans::{ClientSpec, Plan};
use dpc_model::tuples::Item;
use report::text::{Summary, put_items, put_name, put_summary};
use std::alloc::Global;

/// What a client's last line tells.
pub fn summary(client: &Client) -> Summary
    ensures { result ≡ summary_by client.now }
{
    Summary {
        stable: client.count(),
        bound: client.bound(),
        tentative: client.tentatives() as u64,
        settled: client.settled(),
    }
}

/// One line for each item of these batches.
fn put_taken(text: &mut Vec<u8>, taken: &[Shared<Item>]) -> Result<(), NoMemory>
    ensures { OnOk result (text.new.items ≡ text.old.items ++ text_of (map item_words (all_taken taken.now))) }
{
    for items in taken.iter() {
        put_items(text, items.as_slice())?;
    }
    Ok(())
}

/// The lines of one client.
fn put_client(text: &mut Vec<u8>, name: &[u8], client: &Client) -> Result<(), NoMemory>
    ensures { OnOk result (text.new.items ≡ text.old.items ++ text_by (name.now, client.now)) }
{
    put_name(text, name)?;
    put_taken(text, client.taken())?;
    put_summary(text, name, &summary(client))?;
    Ok(())
}

/// The lines of the clients, under the names that the plan gives them.
fn put_clients(text: &mut Vec<u8>, specs: &[ClientSpec], clients: &[Client]) -> Result<(), NoMemory>
    ensures { OnOk result (text.new.items ≡ text.old.items ++ flat_map text_by (named specs.now clients.now)) }
{
    for i in 0..specs.len().min(clients.len()) {
        put_client(text, specs[i].name.as_slice(), &clients[i])?;
    }
    Ok(())
}

/// Their summary lines alone.
fn put_summaries(
    text: &mut Vec<u8>,
    specs: &[ClientSpec],
    clients: &[Client],
) -> Result<(), NoMemory>
    ensures { OnOk result (text.new.items ≡ text.old.items ++ flat_map short_by (named specs.now clients.now)) }
{
    for i in 0..specs.len().min(clients.len()) {
        put_summary(text, specs[i].name.as_slice(), &summary(&clients[i]))?;
    }
    Ok(())
}

/// For each client its name, a line for each item that it took, and its summary. The only error is want
/// of memory.
pub fn report_text(alloc: Global, plan: &Plan, clients: &[Client]) -> Result<Vec<u8>, NoMemory>
    ensures { IfOk result (λ text. (w : World) → w.plan ≡ plan.now → StandForClients plan.now 0 clients.now w.clients
        → text.items ≡ report_text w) }
{
    let mut text = Vec::new(alloc);
    put_clients(&mut text, plan.clients.as_slice(), clients)?;
    Ok(text)
}

/// The summary line of each client. The only error is want of memory.
pub fn report_short(alloc: Global, plan: &Plan, clients: &[Client]) -> Result<Vec<u8>, NoMemory>
    ensures { IfOk result (λ text. (w : World) → w.plan ≡ plan.now → StandForClients plan.now 0 clients.now w.clients
        → text.items ≡ report_short w) }
{
    let mut text = Vec::new(alloc);
    put_summaries(&mut text, plan.clients.as_slice(), clients)?;
    Ok(text)
}
