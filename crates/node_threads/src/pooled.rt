//! The run of a script by several threads, of which some make its events and the others mill.
ghost use Rattle.std.specs.Prelude.{◌≡◌, ℕ, ◌+◌, ◌≤◌, ◌<◌, ◌^◌, length, slice_index_or, IfOk, IfErr};
ghost use Rattle.law_fit.specs.Fits.{CanRun};
ghost use Rattle.mill_pool.specs.Answers.{IsSeatOf, AreSeatsOf, IsSameSeat};
ghost use Rattle.mill_pool.specs.Seats.{numbers_of};
ghost use Rattle.node_threads.specs.Lives.{IsLiveRun, IsPast};

use crate::faults::LiveFault;
use crate::hall::Hall;
use crate::hand::{give_share, take_share};
use crate::live::{PARTS, finish};
use crate::pooling::{PoolSeat, RunPool, RunSeat, drain};
use crate::post::Post;
use crate::seats::{AtSeat, at_seats};
use crate::signals::Signals;
use crate::worker::{Worker, act};
use core::mem::replace_with;
use dpc_edge::gate::Gate;
use dpc_model::scripts::Script;
use event_shares::names::RunName;
use event_shares::share::Share;
use std::alloc::Global;
use std::marker::Brand;
use std::sync::ledger::Blank;
use std::sync::{Mutex, Wait};
use std::thread::Threads;
use world_core::world::World;

/// How many orders a pool of a run has room for.
const ROOM: u64 = 64;

/// Those who work for a run with a pool: the first `workers` make its events, and the others mill.
#[derive(Drop)]
struct Crew<'a, N: RunName, R, G> {
    rt: &'a R,
    alloc: Global,
    signals: &'a Signals,
    gate: &'a G,
    /// Where each takes a share, and puts it back.
    shares: &'a Mutex<Share<N>>,
    workers: u64,
}

impl<'a, N: RunName, R: Wait, G: Gate> Crew<'a, N, R, G> {
    /// What the one at this place needs.
    fn post<'b>(&'b self, hall: &'b Mutex<Hall<N>>, place: u64) -> Post<'b, N, G> {
        Post {
            alloc: self.alloc,
            hall,
            signals: self.signals,
            gate: self.gate,
            worker: place,
            workers: self.workers,
        }
    }

    /// Works, or mills, until the run is over, or for long there is nothing to do.
    fn serve(&self, hall: &Mutex<Hall<N>>, place: u64, seat: PoolSeat<'_, N>) -> RunSeat<N>
        requires { N.parts < 2 ^ 64 }
        ensures { IsSameSeat seat.entry.pool.now seat.entry.seat result }
    {
        let mut seat = seat;
        let Some(mut share) = take_share(self.rt, self.shares) else {
            return seat.seat;
        };
        let post = self.post(hall, place);
        if place < self.workers {
            let mut worker = Worker::new(&post, seat);
            act(self.rt, &post, &mut worker, &mut share);
            seat = worker.milling;
        } else {
            self.signals.come();
            act(self.rt, &post, &mut seat, &mut share);
        }
        give_share(self.rt, self.shares, share);
        seat.seat
    }

    /// Mills what is left in the pool.
    fn clear(&self, hall: &Mutex<Hall<N>>, seat: PoolSeat<'_, N>) -> RunSeat<N>
        requires { N.parts < 2 ^ 64 }
        ensures { IsSameSeat seat.entry.pool.now seat.entry.seat result }
    {
        let mut seat = seat;
        if let Some(mut share) = take_share(self.rt, self.shares) {
            let post = self.post(hall, 0);
            drain(self.rt, &post, &mut seat, &mut share);
            give_share(self.rt, self.shares, share);
        }
        seat.seat
    }
}

impl<'a, N: RunName, R: Wait, G: Gate> Crew<'a, N, R, G> {
    /// The first seat clears the pool.
    fn clear_by_first(&self, hall: &Mutex<Hall<N>>, pool: &RunPool<N>, seats: &mut [RunSeat<N>])
        requires parts { N.parts < 2 ^ 64 }
        requires seats { (i : ℕ) (d : _) → i < length seats.old → IsSeatOf pool.now (slice_index_or seats.old i d) }
        ensures long { length seats.new ≡ length seats.old }
        ensures each { (i : ℕ) (d : _) → i < length seats.old → IsSameSeat pool.now (slice_index_or seats.old i d) (slice_index_or seats.new i d) }
    {
        if let Some(seat) = seats.first_mut() {
            let chair = Chair {
                crew: self,
                hall,
                pool,
                place: 0,
            };
            replace_with(seat, chair, cleared::<N, R, G>)
        }
    }
}

/// The place of a seat in a run.
#[derive(Drop)]
struct Chair<'a, N: RunName, R, G> {
    crew: &'a Crew<'a, N, R, G>,
    hall: &'a Mutex<Hall<N>>,
    pool: &'a RunPool<N>,
    place: u64,
}

/// What one who works at a seat does.
fn served<N: RunName, R: Wait, G: Gate>(
    seat: RunSeat<N>,
    chair: Chair<'_, N, R, G>,
) -> (RunSeat<N>, ())
    requires seat { IsSeatOf chair.pool.now seat }
    requires parts { N.parts < 2 ^ 64 }
    ensures { IsSameSeat chair.entry.pool.now seat result.0 }
{
    let back = chair
        .crew
        .serve(chair.hall, chair.place, PoolSeat::new(chair.pool, seat));
    (back, ())
}

/// What is done at a seat when all have left.
fn cleared<N: RunName, R: Wait, G: Gate>(
    seat: RunSeat<N>,
    chair: Chair<'_, N, R, G>,
) -> (RunSeat<N>, ())
    requires seat { IsSeatOf chair.pool.now seat }
    requires parts { N.parts < 2 ^ 64 }
    ensures { IsSameSeat chair.entry.pool.now seat result.0 }
{
    let back = chair
        .crew
        .clear(chair.hall, PoolSeat::new(chair.pool, seat));
    (back, ())
}

impl<'a, N: RunName, R: Wait, G: Gate> AtSeat<Hall<N>, RunPool<N>, RunSeat<N>>
    for Crew<'a, N, R, G> {
    ghost fits = { λ pool seat. IsSeatOf pool seat × (N.parts < 2 ^ 64) };

    ghost stays = { λ pool seat after. IsSameSeat pool seat after };

    fn sit(&self, shared: &Mutex<Hall<N>>, pool: &RunPool<N>, place: usize, seat: &mut RunSeat<N>) {
        let chair = Chair {
            crew: self,
            hall: shared,
            pool,
            place: place as u64,
        };
        replace_with(seat, chair, served::<N, R, G>)
    }
}

/// Does the work of each seat, and then clears the pool.
fn serve_all<N: RunName + Send + Sync, R: Threads + Wait + Sync, G: Gate + Sync>(
    crew: &Crew<'_, N, R, G>,
    hall: &Mutex<Hall<N>>,
    pool: &RunPool<N>,
    seats: &mut [RunSeat<N>],
)
    requires parts { N.parts < 2 ^ 64 }
    requires seats { AreSeatsOf pool.now seats.old }
    ensures seats { AreSeatsOf pool.now seats.new }
    ensures numbers { numbers_of seats.new ≡ numbers_of seats.old }
{
    at_seats(crew.rt, hall, pool, seats, crew);
    crew.clear_by_first(hall, pool, seats);
}

/// Runs the script that N names by those who have the seats of a pool, each in a thread of its own where one can be
/// started: the first `workers` make its events, as in `live`, but put the work of their nodes into the pool, and the others
/// mill it outside the lock and put it back. A full pool's work is milled by who would put it; stale work is dropped.
/// The world is as in `live`. Whatever it answers, the seats come back, in their order: they can close the pool. Work
/// that the end of a run leaves in the pool stays there. It may wait, so its promise holds if it returns.
pub fn live_pool<N: RunName + Send + Sync, R: Threads + Wait + Sync, G: Gate + Sync>(
    rt: &R,
    alloc: Global,
    script: Script,
    blank: Blank,
    workers: u64,
    pool: &RunPool<N>,
    seats: &mut [RunSeat<N>],
    gate: &G,
) -> Result<World, LiveFault>
    requires can { CanRun script.plan }
    requires script { N.script ≡ script }
    requires name { blank.name ≡ N.name }
    requires parts { blank.parts ≡ N.parts }
    requires cut { blank.parts ≡ 64 }
    requires seats { AreSeatsOf pool.now seats.old }
    ensures ok { IfOk result (IsLiveRun script) }
    ensures long { IfErr result (IsPast script) }
    ensures seats { AreSeatsOf pool.now seats.new }
    ensures numbers { numbers_of seats.new ≡ numbers_of seats.old }
{
    let (hall, share) = Hall::<N>::new(alloc, script, blank)?;
    let signals = Signals::with_seats(alloc, seats.len())?;
    let hall = Mutex::new(hall);
    let shares = Mutex::new(share);
    let crew = Crew {
        rt,
        alloc,
        signals: &signals,
        gate,
        shares: &shares,
        workers,
    };
    serve_all(&crew, &hall, pool, seats);
    let (world, _) = finish(rt, alloc, hall.into_inner(), gate, shares.into_inner())?;
    Ok(world)
}

/// The run of the script that N names through a pool of its own.
fn pooled_named<N: RunName + Send + Sync, R: Threads + Wait + Sync, G: Gate + Sync>(
    rt: &R,
    alloc: Global,
    script: Script,
    blank: Blank,
    workers: u64,
    millers: u64,
    gate: &G,
) -> Result<World, LiveFault>
    requires can { CanRun script.plan }
    requires script { N.script ≡ script }
    requires name { blank.name ≡ N.name }
    requires parts { blank.parts ≡ N.parts }
    requires cut { blank.parts ≡ 64 }
    requires workers { (1 ≤ workers) × (workers ≤ 16) }
    requires millers { (1 ≤ millers) × (millers ≤ 16) }
    ensures ok { IfOk result (IsLiveRun script) }
    ensures long { IfErr result (IsPast script) }
{
    let (pool, mut seats) = RunPool::<N>::new(alloc, ROOM, workers + millers)?;
    let seats = seats.as_mut_slice();
    live_pool(rt, alloc, script, blank, workers, &pool, seats, gate)
}

/// Runs a script by so many workers, as `live`, and by so many others who mill what the workers put into a pool that has
/// room for 64 orders. It may wait, so its promise holds if it returns.
pub fn live_by_pool<R: Threads + Wait + Sync, G: Gate + Sync>(
    rt: &R,
    alloc: Global,
    script: Script,
    workers: u64,
    millers: u64,
    gate: &G,
) -> Result<World, LiveFault>
    requires can { CanRun script.plan }
    requires workers { (1 ≤ workers) × (workers ≤ 16) }
    requires millers { (1 ≤ millers) × (millers ≤ 16) }
    ensures ok { IfOk result (IsLiveRun script) }
    ensures long { IfErr result (IsPast script) }
{
    pooled_named::<Brand, R, G>(rt, alloc, script, Blank::new(PARTS), workers, millers, gate)
}
