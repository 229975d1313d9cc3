//! What goes through the pool of a run whose nodes wait for one another.
ghost use Rattle.std.specs.Prelude.{◌≡◌};
ghost use Rattle.law_fit.specs.Fits.{CanRun};

use crate::meeting::{Meeting, SCRIPT};
use diagram_reader::read_script;
use dpc_model::scripts::Script;
use event_shares::names::RunName;
use node_threads::pooled::live_pool;
use node_threads::pooling::RunPool;
use std::alloc::Global;
use std::marker::Brand;
use std::sync::Wait;
use std::sync::atomic::Ordering;
use std::sync::ledger::Blank;
use std::thread::Threads;

/// How many orders two millers took out of the pool that a worker put them into, where both nodes met and nothing is left.
fn taken_in<N: RunName + Send + Sync, R: Threads + Wait + Sync>(
    rt: &R,
    alloc: Global,
    script: Script,
    blank: Blank,
) -> Option<usize>
    requires can { CanRun script.plan }
    requires script { N.script ≡ script }
    requires name { blank.name ≡ N.name }
    requires parts { blank.parts ≡ N.parts }
    requires cut { blank.parts ≡ 64 }
{
    let gate = Meeting::new();
    let Ok((pool, mut seats)) = RunPool::<N>::new(alloc, 64, 3) else {
        return None;
    };
    let run = live_pool(
        rt,
        alloc,
        script,
        blank,
        1,
        &pool,
        seats.as_mut_slice(),
        &gate,
    );
    let Ok(account) = pool.close(alloc, seats) else {
        return None;
    };
    let whole = run.is_ok() && account.left.is_empty();
    if whole && !gate.missed.load(Ordering::SeqCst) {
        Some(account.taken.len())
    } else {
        None
    }
}

/// How many orders went through the pool. None: the run was not whole, or its nodes did not meet.
pub fn taken_through<R: Threads + Wait + Sync>(rt: &R, alloc: Global) -> Option<usize> {
    let Ok(script) = read_script(alloc, SCRIPT.as_bytes()) else {
        return None;
    };
    taken_in::<Brand, R>(rt, alloc, script, Blank::new(64))
}
