//! The run of a script by one thread.
ghost use Rattle.std.specs.Prelude.{◌≡◌, ℕ, false, Some, None, Err, IfOk};
ghost use Rattle.world_model.specs.Schedules.{lockstep_journal};
ghost use Rattle.law_fit.specs.Fits.{CanRun};
ghost use Rattle.world_model.specs.Worlds.{excess};
ghost use Rattle.lockstep.specs.Locking.{SettlesWhere};
ghost use Rattle.run_watchers.specs.Watching.{unstarted, StaysOn};
ghost use Rattle.lockstep.specs.declared.faults.RunFault.TheVariants as fault;

use crate::faults::RunFault;
use crate::phase::RunSoFar;
use dpc_model::scripts::Script;
use run_watchers::watchers::{Unwatched, Watcher};
use std::alloc::Global;
use world_core::world::World;

/// The world after the one-thread journal of a script, quiet phases included; or the numbers that its
/// first event past a limit of runs would reach. Time is linear in the events, and in each phase in the
/// actors, the directives and the envelopes that are pending. Where the script heals, and past the first quiet
/// phases no node recovers, every client is settled.
pub fn run(alloc: Global, script: Script) -> Result<World, RunFault>
    requires { CanRun script.plan }
    ensures ok { IfOk result (λ w. w ≡ record { plan = script.plan; events = lockstep_journal script; spent = false }) }
    ensures within { IfOk result (λ w. excess script.plan (lockstep_journal script) ≡ None) }
    ensures settles { IfOk result (λ w. SettlesWhere script w) }
    ensures long { (envelopes items : ℕ) → result ≡ Err (fault.TooLong envelopes items)
        → excess script.plan (lockstep_journal script) ≡ Some (record { envelopes = envelopes; items = items }) }
{
    run_watched(alloc, script, &mut Unwatched)
}

/// The same, where somebody sees each event when it has happened.
pub fn run_watched<W: Watcher>(
    alloc: Global,
    script: Script,
    watcher: &mut W,
) -> Result<World, RunFault>
    requires { CanRun script.plan }
    ensures ok { IfOk result (λ w. w ≡ record { plan = script.plan; events = lockstep_journal script; spent = false }) }
    ensures saw { W.saw watcher.old (unstarted script.plan) watcher.old → IfOk result (λ w. W.saw watcher.old w watcher.new) }
    ensures stays { StaysOn W.stays watcher.old watcher.new }
    ensures within { IfOk result (λ w. excess script.plan (lockstep_journal script) ≡ None) }
    ensures settles { IfOk result (λ w. SettlesWhere script w) }
    ensures long { (envelopes items : ℕ) → result ≡ Err (fault.TooLong envelopes items)
        → excess script.plan (lockstep_journal script) ≡ Some (record { envelopes = envelopes; items = items }) }
{
    let Script {
        plan,
        phases,
        settle,
    } = script;
    let mut lock = RunSoFar::new(World::new(alloc, plan)?);
    lock.phases(watcher, alloc, phases.as_slice())?;
    if settle {
        return lock.settle(watcher, alloc);
    }
    Ok(lock.world)
}
