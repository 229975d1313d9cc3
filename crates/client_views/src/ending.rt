//! The last tellings and looks.
ghost use Rattle.std.specs.Prelude.{◌≡◌, ◌-◌, ◌≤◌, List, length, IfOk};
ghost use Rattle.node_model.specs.Clients.{ClientState};
ghost use Rattle.client_fold.specs.Folding.{StandForClients};
ghost use Rattle.client_views.specs.Watching.{AreTrueTo, AreInOrder, AreWatched};

use crate::seat::Seat;
use crate::telling::Feed;
use crate::watched::Watched;
use client_fold::client::Client;
use dpc_lists::faults::NoMemory;
use dpc_lists::shared::Shared;
use dpc_model::tuples::Item;
use live_view::names::ViewName;
use live_view::receipt::Receipt;
use std::alloc::Global;
use std::marker::PhantomData;
use std::sync::Wait;

/// The batches with one owner more. No item is copied.
pub fn shares(alloc: Global, batches: &[Shared<Item>]) -> Result<Vec<Shared<Item>>, NoMemory>
    ensures { IfOk result (λ all. all.items ≡ batches.now) }
{
    let mut all = Vec::with_capacity(alloc, batches.len())?;
    for batch in batches {
        all.push(batch.share()?)?;
    }
    Ok(all)
}

/// All that the clients took, whatever was told of it.
#[derive(Drop)]
struct Whole<'a, N: ViewName> {
    clients: &'a [Client],
    of: PhantomData<N>,
}

impl<N: ViewName> Feed<N> for Whole<'_, N> {
    ghost can_tell = { λ w. AreTrueTo N.plan w.clients.now };

    fn read(
        &self,
        alloc: Global,
        client: usize,
        _told: usize,
    ) -> Result<Vec<Shared<Item>>, NoMemory> {
        match self.clients.get(client) {
            Some(client) => shares(alloc, client.taken()),
            None => Ok(Vec::new(alloc)),
        }
    }
}

/// Tells what is left, and gathers the last receipts.
fn tell_rest<N: ViewName, R: Wait>(
    rt: &R,
    alloc: Global,
    clients: &[Client],
    seats: &mut [Seat<N>],
) -> Result<Vec<Receipt<N>>, NoMemory>
    requires { AreTrueTo N.plan clients.now }
    ensures { seats.new ≡ seats.old }
{
    let whole = Whole::<N> {
        clients,
        of: PhantomData,
    };
    let mut receipts = Vec::new(alloc);
    for i in 0..seats.len() {
        seats[i].tell(rt, alloc, &whole)?;
        seats[i].hand_in(&mut receipts)?;
    }
    Ok(receipts)
}

/// Each reader learns the receipts.
fn learn_all<N: ViewName>(receipts: &[Receipt<N>], seats: &mut [Seat<N>])
    ensures { seats.new ≡ seats.old }
{
    for i in 0..seats.len() {
        seats[i].learn(receipts);
    }
}

/// Each reader looks once more.
fn look_last<N: ViewName, R: Wait>(
    rt: &R,
    alloc: Global,
    clients: &[Client],
    workers: usize,
    seats: &mut [Seat<N>],
) -> Result<Vec<Watched>, NoMemory>
    requires many { workers ≤ length seats.old }
    requires order { AreInOrder workers (length clients.now) seats.old }
    ensures same { seats.new ≡ seats.old }
    ensures watched { IfOk result (λ ws. (xs : List ClientState) → StandForClients N.plan 0 clients.now xs → AreWatched N.plan xs (length seats.old - workers) ws.items) }
{
    let mut watched = Vec::new(alloc);
    for i in workers..seats.len() {
        let mut of_one = seats[i].look_last(rt, alloc, (i - workers) as u64, clients)?;
        watched.append(&mut of_one)?;
    }
    Ok(watched)
}

/// Tells what the clients took and was not told, has each reader learn the last receipts, and look once more. What it
/// then sees is no less than what each client holds. It waits for that, so its promise holds if it returns.
pub fn end<N: ViewName, R: Wait>(
    rt: &R,
    alloc: Global,
    clients: &[Client],
    workers: usize,
    seats: &mut [Seat<N>],
) -> Result<Vec<Watched>, NoMemory>
    requires are_true { AreTrueTo N.plan clients.now }
    requires many { workers ≤ length seats.old }
    requires order { AreInOrder workers (length clients.now) seats.old }
    ensures same { seats.new ≡ seats.old }
    ensures watched { IfOk result (λ ws. (xs : List ClientState) → StandForClients N.plan 0 clients.now xs → AreWatched N.plan xs (length seats.old - workers) ws.items) }
{
    let receipts = tell_rest(rt, alloc, clients, seats)?;
    learn_all(receipts.as_slice(), seats);
    look_last(rt, alloc, clients, workers, seats)
}
