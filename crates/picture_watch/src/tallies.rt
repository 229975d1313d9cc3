//! How many undos and rec_dones a client took.
ghost use Rattle.std.specs.Prelude.{◌≡◌, ◌+◌, length, take, drop, IfOk};
ghost use Rattle.std.specs.List.{count_by};
ghost use Rattle.client_fold.specs.Folding.{all_taken};
ghost use Rattle.picture_model.specs.Points.{is_undo, is_done};
ghost use Rattle.picture_watch.specs.Tallies.{tally_of, IsTally, counted_in};

use client_fold::client::Client;
use dpc_lists::faults::NoMemory;
use dpc_lists::shared::Shared;
use dpc_model::tuples::Item;

/// How many items of a client were looked at, and how many of these are undo, and rec_done.
#[derive(Clone, Copy)]
pub struct Tally {
    pub mark: u128,
    pub undos: u64,
    pub dones: u64,
}

/// Whether an item is undo.
fn is_undo(item: &Item) -> bool
    ensures { result ≡ is_undo item.now }
{
    matches!(item, Item::Undo(_))
}

/// Whether an item is rec_done.
fn is_done(item: &Item) -> bool
    ensures { result ≡ is_done item.now }
{
    matches!(item, Item::RecDone)
}

/// A sum, where one out of range counts as want of memory.
fn add(a: u64, b: u64) -> Result<u64, NoMemory>
    ensures { IfOk result (λ sum. sum ≡ a + b) }
{
    a.checked_add(b).ok_or(NoMemory)
}

/// The tally with these items too.
fn with_items(tally: Tally, items: &[Item]) -> Result<Tally, NoMemory>
    ensures { IfOk result (λ t. t ≡ counted_in tally items.now) }
{
    let undos = items.iter().filter(|item| is_undo(item)).count();
    let dones = items.iter().filter(|item| is_done(item)).count();
    Ok(Tally {
        mark: tally.mark,
        undos: add(tally.undos, undos as u64)?,
        dones: add(tally.dones, dones as u64)?,
    })
}

/// The tally with the items of these batches but the first `skip` ones.
fn with_batches(tally: Tally, batches: &[Shared<Item>], skip: u128) -> Result<Tally, NoMemory>
    ensures { IfOk result (λ t. t ≡ counted_in tally (drop skip (all_taken batches.now))) }
{
    let mut tally = tally;
    let mut skip = skip;
    for batch in batches {
        let items = batch.as_slice();
        let known = skip.min(items.len() as u128);
        tally = with_items(tally, items.split_at(known as usize).1)?;
        skip -= known;
    }
    Ok(tally)
}

/// The tally of all that a client took, by that of its first items. It looks at new items alone.
pub fn renewed(tally: Tally, client: &Client) -> Result<Tally, NoMemory>
    ensures { IfOk result (λ t. IsTally tally client.now.taken → t ≡ tally_of client.now.taken) }
{
    let total = client.total();
    if tally.mark >= total {
        return Ok(tally);
    }
    let (batches, known) = client.taken_behind(tally.mark);
    let counted = with_batches(tally, batches, known)?;
    Ok(Tally {
        mark: total,
        undos: counted.undos,
        dones: counted.dones,
    })
}
