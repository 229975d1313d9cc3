//! Views of all clients of a plan, and their seats.
ghost use Rattle.std.specs.Prelude.{◌≡◌, ℕ, [], ◌+◌, ◌≤◌, ◌<◌, length, replicate, slice_index_or, IfOk};
ghost use Rattle.dpc_model.specs.Fragments.{IsSound};
ghost use Rattle.client_views.specs.Watching.{AreInOrder};

use crate::seat::Seat;
use dpc_lists::faults::NoMemory;
use dpc_model::plans::Plan;
use live_view::live::LiveView;
use live_view::looker::Looker;
use live_view::names::ViewName;
use std::alloc::Global;
use std::sync::Wait;

/// Seats at which nobody's clients are told or watched.
fn empty_seats<N: ViewName>(alloc: Global, count: usize) -> Result<Vec<Seat<N>>, NoMemory>
    ensures { IfOk result (λ seats. seats.items ≡ replicate count []) }
{
    let mut seats = Vec::with_capacity(alloc, count)?;
    for _ in 0..count {
        seats.push_reserved(Seat::new(alloc));
    }
    Ok(seats)
}

/// Each reader watches one client more.
fn watch_also<N: ViewName>(
    client: u64,
    lookers: Vec<Looker<N>>,
    workers: usize,
    seats: &mut [Seat<N>],
) -> Result<(), NoMemory>
    requires lookers { (i : ℕ) (d : _) → i < length lookers.items → (slice_index_or lookers.items i d).client ≡ client }
    requires many { workers + length lookers.items ≡ length seats.old }
    requires order { AreInOrder workers client seats.old }
    ensures long { length seats.new ≡ length seats.old }
    ensures order { IfOk result (λ _. AreInOrder workers (client + 1) seats.new) }
{
    let mut lookers = lookers;
    for place in workers..seats.len() {
        seats[place].watch_also(client, lookers.take_last())?;
    }
    Ok(())
}

/// One client more is told by the worker at this place, and watched by each reader.
fn open_client<N: ViewName, R: Wait>(
    rt: &R,
    alloc: Global,
    plan: &Plan,
    client: usize,
    place: usize,
    workers: usize,
    seats: &mut [Seat<N>],
) -> Result<(), NoMemory>
    requires name { plan.now ≡ N.plan }
    requires plan { IsSound plan.now × (client < length plan.now.clients) }
    requires place { place < workers }
    requires readers { (workers + 1 ≤ length seats.old) × (length seats.old ≤ workers + 8) }
    requires order { AreInOrder workers client seats.old }
    ensures long { length seats.new ≡ length seats.old }
    ensures order { IfOk result (λ _. AreInOrder workers (client + 1) seats.new) }
{
    let readers = seats.len() - workers;
    let (teller, lookers) = LiveView::new::<N, R>(rt, alloc, plan, client as u64, readers as u64)?;
    seats[place].tell_also(rt, client, teller)?;
    watch_also(client as u64, lookers, workers, seats)
}

/// Each client is told and watched.
fn open_all<N: ViewName, R: Wait>(
    rt: &R,
    alloc: Global,
    plan: &Plan,
    first: u64,
    workers: usize,
    seats: &mut [Seat<N>],
) -> Result<(), NoMemory>
    requires name { plan.now ≡ N.plan }
    requires plan { IsSound plan.now }
    requires workers { 1 ≤ workers }
    requires readers { (workers + 1 ≤ length seats.old) × (length seats.old ≤ workers + 8) }
    requires order { AreInOrder workers 0 seats.old }
    ensures long { length seats.new ≡ length seats.old }
    ensures order { IfOk result (λ _. AreInOrder workers (length plan.now.clients) seats.new) }
{
    for client in 0..plan.clients.len() {
        let actor = first.wrapping_add(client as u64);
        let place = (actor % workers as u64) as usize;
        open_client(rt, alloc, plan, client, place, workers, seats)?;
    }
    Ok(())
}

/// Views of all clients of a plan: the seats of so many workers, who tell them, and behind them those of the readers, who
/// watch them. The worker of a client is that of its actor, whose number begins at `first`.
pub fn open<N: ViewName, R: Wait>(
    rt: &R,
    alloc: Global,
    plan: &Plan,
    first: u64,
    workers: usize,
    readers: usize,
) -> Result<Vec<Seat<N>>, NoMemory>
    requires name { plan.now ≡ N.plan }
    requires plan { IsSound plan.now }
    requires workers { (1 ≤ workers) × (workers ≤ 16) }
    requires readers { (1 ≤ readers) × (readers ≤ 8) }
    ensures long { IfOk result (λ seats. length seats.items ≡ workers + readers) }
    ensures order { IfOk result (λ seats. AreInOrder workers (length plan.now.clients) seats.items) }
{
    let mut seats = empty_seats::<N>(alloc, workers + readers)?;
    match open_all(rt, alloc, plan, first, workers, seats.as_mut_slice()) {
        Ok(()) => Ok(seats),
        Err(fault) => {
            close(rt, seats);
            Err(fault)
        }
    }
}

/// Ends all that is told.
pub fn close<N: ViewName, R: Wait>(rt: &R, seats: Vec<Seat<N>>) {
    let mut seats = seats;
    let count = seats.len();
    for _ in 0..count {
        seats.take_last().close(rt);
    }
    seats.destroy_empty();
}
