//! The run of a script by several threads.
ghost use Rattle.std.specs.Prelude.{◌≡◌, ◌<◌, ◌≤◌, true, false, length, Some, vec_len, IfOk, IfErr};
ghost use Rattle.law_fit.specs.Fits.{CanRun};
ghost use Rattle.node_threads.specs.Lives.{IsLiveRun, IsPast};

use crate::faults::LiveFault;
use crate::hall::Hall;
use crate::hand::{Hand, deal, gather};
use crate::post::Post;
use crate::signals::Signals;
use crate::worker::{work, work_by_hand};
use dpc_edge::gate::Gate;
use dpc_model::scripts::Script;
use event_shares::names::RunName;
use event_shares::share::Share;
use std::alloc::{AllocError, Global};
use std::marker::Brand;
use std::sync::ledger::Blank;
use std::sync::{Mutex, Wait};
use std::thread;
use std::thread::Threads;
use world_core::world::World;

/// How many parts the ledger of a run has.
pub const PARTS: u64 = 64;

/// Does what is left of a run, and gives its world. The share of all parts has then counted each event.
pub fn finish<N: RunName, R: Wait, G: Gate>(
    rt: &R,
    alloc: Global,
    hall: Hall<N>,
    gate: &G,
    share: Share<N>,
) -> Result<(World, Share<N>), LiveFault>
    ensures ok { IfOk result (λ r. IsLiveRun N.script r.0) }
    ensures counted { share.parts ≡ N.parts → IfOk result (λ r. r.1.amount ≡ length r.0.events) }
    ensures long { IfErr result (IsPast N.script) }
{
    let mut hall = hall;
    let mut share = share;
    for _ in rt.forever() {
        if let Some(stop) = hall.stopped() {
            return Err(LiveFault::TooLong(hall.into_world(), stop));
        }
        if hall.is_spent() || hall.gave_up() {
            return Err(LiveFault::NoMemory);
        }
        if hall.is_over() {
            hall.audit(&mut share);
            return Ok((hall.into_world(), share));
        }
        let lock = Mutex::new(hall);
        let signals = Signals::new(alloc);
        let post = Post {
            alloc,
            hall: &lock,
            signals: &signals,
            gate,
            worker: 0,
            workers: 1,
        };
        work(rt, &post, &mut share);
        hall = lock.into_inner();
    }
    unreachable!()
}

/// Does each job in a thread of its own, where one can be started. All share what stands behind the lock.
fn in_threads<H: Send, J: Send + Drop, R: Threads + Sync, W: Fn(&Mutex<H>, J) -> J + Sync>(
    rt: &R,
    shared: &Mutex<H>,
    jobs: Vec<J>,
    worker: &W,
) -> Result<Vec<J>, AllocError>
    requires { W.IsAlwaysCallable worker.now }
    ensures { IfOk result (λ back. vec_len back ≡ vec_len jobs) }
{
    thread::map_vec(rt, jobs, &|job: J| -> J { worker(shared, job) })
}

/// Each worker works with a hand of its own.
fn by_threads<N: RunName + Send + Sync, R: Threads + Wait + Sync, G: Gate + Sync>(
    rt: &R,
    alloc: Global,
    lock: &Mutex<Hall<N>>,
    signals: &Signals,
    gate: &G,
    hands: Vec<Hand<N>>,
    workers: u64,
) -> Result<Vec<Hand<N>>, AllocError>
    ensures { IfOk result (λ back. vec_len back ≡ vec_len hands) }
{
    in_threads(
        rt,
        lock,
        hands,
        &|hall: &Mutex<Hall<N>>, hand: Hand<N>| -> Hand<N> {
            let post = Post {
                alloc,
                hall,
                signals,
                gate,
                worker: hand.worker,
                workers,
            };
            work_by_hand(rt, &post, hand)
        },
    )
}

/// The run of the script that N names, by so many workers.
fn live_named<N: RunName + Send + Sync, R: Threads + Wait + Sync, G: Gate + Sync>(
    rt: &R,
    alloc: Global,
    script: Script,
    blank: Blank,
    workers: u64,
    gate: &G,
) -> Result<World, LiveFault>
    requires can { CanRun script.plan }
    requires script { N.script ≡ script }
    requires name { blank.name ≡ N.name }
    requires parts { blank.parts ≡ N.parts }
    requires cut { blank.parts ≡ 64 }
    requires workers { workers ≤ 16 }
    ensures ok { IfOk result (IsLiveRun script) }
    ensures long { IfErr result (IsPast script) }
{
    let (hall, mut rest) = Hall::<N>::new(alloc, script, blank)?;
    let hands = deal(alloc, &mut rest, workers)?;
    let lock = Mutex::new(hall);
    let signals = Signals::new(alloc);
    let hands = by_threads(rt, alloc, &lock, &signals, gate, hands, workers)?;
    gather(&mut rest, hands);
    let (world, _) = finish(rt, alloc, lock.into_inner(), gate, rest)?;
    Ok(world)
}

/// Runs a script by so many workers, each in a thread of its own where one can be started. A worker makes the deliveries
/// to its actors, their ticks and their mills, those whose number modulo `workers` is its own; the first one also makes
/// the events of phases and directives. Orders are milled outside the lock. The world is the run of its journal, which
/// is complete and live for the script: which one it is the threads decide. What they leave undone is done by the same
/// calls on this thread. It may wait, so its promise holds if it returns.
pub fn live<R: Threads + Wait + Sync, G: Gate + Sync>(
    rt: &R,
    alloc: Global,
    script: Script,
    workers: u64,
    gate: &G,
) -> Result<World, LiveFault>
    requires can { CanRun script.plan }
    requires some { 1 ≤ workers }
    requires few { workers ≤ 16 }
    ensures ok { IfOk result (IsLiveRun script) }
    ensures long { IfErr result (IsPast script) }
{
    live_named::<Brand, R, G>(rt, alloc, script, Blank::new(PARTS), workers, gate)
}
