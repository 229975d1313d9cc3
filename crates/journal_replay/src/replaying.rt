//! The replay of a journal.
ghost use Rattle.std.specs.Prelude.{◌≡◌, false, IfOk, OnOk, IfErr};
ghost use Rattle.law_fit.specs.Fits.{CanRun};
ghost use Rattle.live_run.specs.Lives.{world_in};
ghost use Rattle.run_watchers.specs.Watching.{unstarted, StillSaw, StaysOn};
ghost use Rattle.world_model.specs.Replays.{Whole, replay_end};
ghost use Rattle.journal_replay.specs.Stopping.{Happened, StopsAt, StopsSo};

use crate::faults::ReplayFault;
use dpc_model::messages::Event;
use dpc_model::scripts::Script;
use live_run::run::LiveRun;
use run_watchers::watchers::{Unwatched, Watcher};
use std::alloc::Global;
use world_core::faults::ApplyFault;
use world_core::world::World;

/// One more entry happens, where it may come next and passes no limit, and is seen.
fn step<W: Watcher>(
    alloc: Global,
    run: &mut LiveRun,
    watcher: &mut W,
    entry: u64,
    event: Event,
) -> Result<(), ReplayFault>
    requires { run.old.spent ≡ false }
    ensures ok { OnOk result (Happened run.old run.new event) }
    ensures saw { OnOk result (StillSaw W.saw (world_in run.old) watcher.old (world_in run.new) watcher.new) }
    ensures stays { StaysOn W.stays watcher.old watcher.new }
    ensures err { IfErr result (λ why. StopsAt run.old event entry why) }
{
    match run.apply(alloc, event) {
        Ok(true) => {
            watcher.see(alloc, run.world(), event)?;
            Ok(())
        }
        Ok(false) => Err(ReplayFault::Refused { entry }),
        Err(ApplyFault::TooLong { envelopes, items }) => {
            Err(ReplayFault::TooLong { envelopes, items })
        }
        Err(_) => Err(ReplayFault::NoMemory),
    }
}

/// The world of a journal, where that is a complete live one of the script and passes no limit. Else what
/// its first entry says that may not come where it stands, or would pass a limit, whatever stands behind
/// it; or that it ends too early. Time is linear in the entries, and in each phase in the actors and the
/// envelopes that wait.
pub fn replay(alloc: Global, script: Script, events: &[Event]) -> Result<World, ReplayFault>
    requires { CanRun script.plan }
    ensures run { IfOk result (λ w. w ≡ record { plan = script.plan; events = events.now; spent = false }) }
    ensures whole { OnOk result (replay_end script events.now ≡ Whole) }
    ensures err { IfErr result (λ why. StopsSo script events.now why) }
{
    replay_watched(alloc, script, events, &mut Unwatched)
}

/// The same, where somebody sees each event when it has happened.
pub fn replay_watched<W: Watcher>(
    alloc: Global,
    script: Script,
    events: &[Event],
    watcher: &mut W,
) -> Result<World, ReplayFault>
    requires { CanRun script.plan }
    ensures run { IfOk result (λ w. w ≡ record { plan = script.plan; events = events.now; spent = false }) }
    ensures saw { W.saw watcher.old (unstarted script.plan) watcher.old → IfOk result (λ w. W.saw watcher.old w watcher.new) }
    ensures stays { StaysOn W.stays watcher.old watcher.new }
    ensures whole { OnOk result (replay_end script events.now ≡ Whole) }
    ensures err { IfErr result (λ why. StopsSo script events.now why) }
{
    let mut run = LiveRun::open(alloc, script)?;
    for entry in 0..events.len() {
        step(alloc, &mut run, watcher, entry as u64, events[entry])?;
    }
    if !run.is_complete() {
        return Err(ReplayFault::Unfinished);
    }
    Ok(run.into_world())
}
