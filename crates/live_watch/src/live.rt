//! The run of a script that is watched.
ghost use Rattle.std.specs.Prelude.{◌≡◌, ◌-◌, ◌≤◌, length, IfOk, IfErr};
ghost use Rattle.law_fit.specs.Fits.{CanRun};
ghost use Rattle.node_threads.specs.Lives.{IsPast};
ghost use Rattle.client_views.specs.Watching.{AreInOrder};
ghost use Rattle.live_watch.specs.Watches.{IsWatchedRun};

use crate::crew::Crew;
use client_views::ending::end;
use client_views::opening::{close, open};
use client_views::seat::Seat;
use client_views::watched::Watched;
use dpc_edge::gate::Gate;
use dpc_model::plans::Plan;
use dpc_model::scripts::Script;
use event_shares::names::RunName;
use live_view::names::ViewName;
use node_threads::faults::LiveFault;
use node_threads::hall::Hall;
use node_threads::live::{PARTS, finish};
use node_threads::seats::at_seats;
use node_threads::signals::Signals;
use std::alloc::Global;
use std::marker::Brand;
use std::sync::ledger::Blank;
use std::sync::{Mutex, Wait};
use std::thread::Threads;
use world_core::world::World;

/// The number of the first client's actor: it is behind the sources and all replicas.
fn first_client(plan: &Plan) -> u64 {
    let mut first = plan.sources.len() as u64;
    for frag in plan.frags.as_slice() {
        first = first.wrapping_add(frag.replicas);
    }
    first
}

/// The run of the script that N names by those who have these seats: the first `workers` make its events, and the others
/// watch.
fn run_watched<N: RunName + ViewName + Send + Sync, R: Threads + Wait + Sync, G: Gate + Sync>(
    rt: &R,
    alloc: Global,
    script: Script,
    blank: Blank,
    workers: usize,
    seats: &mut [Seat<N>],
    gate: &G,
) -> Result<(World, Vec<Watched>), LiveFault>
    requires can { CanRun script.plan }
    requires script { N.script ≡ script }
    requires plan { N.plan ≡ script.plan }
    requires name { blank.name ≡ N.name }
    requires parts { blank.parts ≡ N.parts }
    requires cut { blank.parts ≡ 64 }
    requires many { workers ≤ length seats.old }
    requires order { AreInOrder workers (length script.plan.clients) seats.old }
    ensures ok { IfOk result (λ r. IsWatchedRun script (length seats.old - workers) r.0 r.1.items) }
    ensures long { IfErr result (IsPast script) }
{
    let (hall, share) = Hall::<N>::new(alloc, script, blank)?;
    let signals = Signals::new(alloc);
    let hall = Mutex::new(hall);
    let shares = Mutex::new(share);
    let crew = Crew {
        rt,
        alloc,
        signals: &signals,
        gate,
        shares: &shares,
        workers,
    };
    at_seats(rt, &hall, &(), seats, &crew);
    let (world, _) = finish(rt, alloc, hall.into_inner(), gate, shares.into_inner())?;
    let watched = end(rt, alloc, world.clients(), workers, seats)?;
    Ok((world, watched))
}

/// The run of the script that N names, by so many workers, while so many readers watch.
fn live_named<N: RunName + ViewName + Send + Sync, R: Threads + Wait + Sync, G: Gate + Sync>(
    rt: &R,
    alloc: Global,
    script: Script,
    blank: Blank,
    workers: usize,
    readers: usize,
    gate: &G,
) -> Result<(World, Vec<Watched>), LiveFault>
    requires can { CanRun script.plan }
    requires script { N.script ≡ script }
    requires plan { N.plan ≡ script.plan }
    requires name { blank.name ≡ N.name }
    requires parts { blank.parts ≡ N.parts }
    requires cut { blank.parts ≡ 64 }
    requires workers { (1 ≤ workers) × (workers ≤ 16) }
    requires readers { (1 ≤ readers) × (readers ≤ 8) }
    ensures ok { IfOk result (λ r. IsWatchedRun script readers r.0 r.1.items) }
    ensures long { IfErr result (IsPast script) }
{
    let first = first_client(&script.plan);
    let mut seats = open::<N, R>(rt, alloc, &script.plan, first, workers, readers)?;
    let told = run_watched(
        rt,
        alloc,
        script,
        blank,
        workers,
        seats.as_mut_slice(),
        gate,
    );
    close(rt, seats);
    told
}

/// Runs a script by so many workers, as `node_threads::live::live`, while so many readers, each in a thread of its own
/// where one can be started, look at the clients' stable streams without the run's lock, until it is over, or a reader
/// has looked 1,000,000 times. The worker that delivers to a client tells what it takes. What then was not told is told,
/// and each reader looks once more: by reader and then by client, how many stable tuples it saw, and up to where they
/// are all. That is no less than the client holds, and no more than the failure-free output. It may wait, so its promise
/// holds if it returns.
pub fn live_watch<R: Threads + Wait + Sync, G: Gate + Sync>(
    rt: &R,
    alloc: Global,
    script: Script,
    workers: u64,
    readers: u64,
    gate: &G,
) -> Result<(World, Vec<Watched>), LiveFault>
    requires can { CanRun script.plan }
    requires workers { (1 ≤ workers) × (workers ≤ 16) }
    requires readers { (1 ≤ readers) × (readers ≤ 8) }
    ensures ok { IfOk result (λ r. IsWatchedRun script readers r.0 r.1.items) }
    ensures long { IfErr result (IsPast script) }
{
    let workers = workers as usize;
    let readers = readers as usize;
    live_named::<Brand, R, G>(rt, alloc, script, Blank::new(PARTS), workers, readers, gate)
}
