//! A run so far, and its phases.
ghost use Rattle.std.specs.Prelude.{◌≡◌, ◌+◌, true, false, [], fold, length, map, max, IfOk, OnOk, IfErr};
ghost use Rattle.dpc_model.specs.declared.scripts.Script.{Script};
ghost use Rattle.world_model.specs.Schedules.{quiet_limit, tell_phase, tell_phases, tell_quiet, Told};
ghost use Rattle.world_core.specs.Runs.{world_of};
ghost use Rattle.run_watchers.specs.Watching.{StillSaw, StaysOn};
ghost use Rattle.lockstep.specs.Locking.{IsAt, Follows, Exceeds, StandsBehind, IsWhole};

use crate::events::phase_events;
use crate::faults::RunFault;
use crate::telling::{direct_all, tell, tell_all};
use dpc_model::messages::Event;
use dpc_model::plans::{FragSpec, Plan};
use dpc_model::scripts::{Directive, Phase};
use run_watchers::watchers::Watcher;
use std::alloc::Global;
use world_core::world::World;

/// The most replicas of a fragment.
fn most_replicas(frags: &[FragSpec]) -> u64
    ensures { result ≡ fold max 0 (map (λ f. f.replicas) frags.now) }
{
    let mut most: u64 = 0;
    for frag in frags {
        most = most.max(frag.replicas);
    }
    most
}

/// The most quiet phases of a run: 38 is `settling_phases` of `world_model`.
fn quiet_limit(plan: &Plan) -> u128
    ensures { result ≡ quiet_limit plan.now }
{
    let frags = plan.frags.as_slice();
    (frags.len() as u128 + 1) * (most_replicas(frags) as u128 + 1) * 38
}

/// A run so far. Each phase hands over the envelopes that were sent since the one before it began.
#[derive(Drop)]
pub struct RunSoFar {
    pub world: World,
    /// The number of the next phase.
    phase: u64,
    /// The first envelope that was sent since the last phase began.
    first: u64,
    /// The clock of the last phase, 0 before the first one.
    now: u64,
}

impl RunSoFar {
    /// Before the first phase, of a world in which nothing happened yet.
    pub fn new(world: World) -> RunSoFar
        requires { world.events ≡ [] }
        ensures { result ≡ record { world = world; phase = 1; first = 0; now = 0 } }
    {
        RunSoFar {
            world,
            phase: 1,
            first: 0,
            now: 0,
        }
    }

    /// The next phase.
    pub fn phase<W: Watcher>(
        &mut self,
        watcher: &mut W,
        alloc: Global,
        directives: &[Directive],
        now: u64,
    ) -> Result<(), RunFault>
        requires { self.old.world.spent ≡ false }
        ensures ok { OnOk result (Follows (tell_phase self.old.phase self.old.first directives.now now) self.old.world self.new.world) }
        ensures saw { OnOk result (StillSaw W.saw self.old.world watcher.old self.new.world watcher.new) }
        ensures stays { StaysOn W.stays watcher.old watcher.new }
        ensures phase { OnOk result (self.new.phase ≡ self.old.phase + 1) }
        ensures first { OnOk result (self.new.first ≡ length (world_of self.old.world).envelopes) }
        ensures clock { OnOk result (self.new.now ≡ now) }
        ensures long { IfErr result (Exceeds (tell_phase self.old.phase self.old.first directives.now now) self.old.world) }
    {
        let next = self.phase.checked_add(1).ok_or(RunFault::NoMemory)?;
        let sent = self.world.envelope_count();
        tell(&mut self.world, watcher, alloc, Event::Phase(self.phase))?;
        direct_all(&mut self.world, watcher, alloc, directives)?;
        let events = phase_events(alloc, &self.world, directives, self.first, sent, now)?;
        tell_all(&mut self.world, watcher, alloc, events.as_slice())?;
        self.phase = next;
        self.first = sent;
        self.now = now;
        Ok(())
    }

    /// The phases of a script.
    pub fn phases<W: Watcher>(
        &mut self,
        watcher: &mut W,
        alloc: Global,
        phases: &[Phase],
    ) -> Result<(), RunFault>
        requires { self.old.world.spent ≡ false }
        ensures ok { OnOk result (Follows (λ x. (tell_phases self.old.phase self.old.first phases.now x).1) self.old.world self.new.world) }
        ensures saw { OnOk result (StillSaw W.saw self.old.world watcher.old self.new.world watcher.new) }
        ensures stays { StaysOn W.stays watcher.old watcher.new }
        ensures phase { OnOk result (self.new.phase ≡ self.old.phase + length phases.now) }
        ensures first { OnOk result ((x : Told) → IsAt self.old.world x
            → (tell_phases self.old.phase self.old.first phases.now x).0 ≡ self.new.first) }
        ensures clock { OnOk result (self.new.now ≡ fold (λ _ now. now) self.old.now (map (λ p. p.now) phases.now)) }
        ensures long { IfErr result (Exceeds (λ x. (tell_phases self.old.phase self.old.first phases.now x).1) self.old.world) }
    {
        for phase in phases {
            self.phase(watcher, alloc, phase.directives.as_slice(), phase.now)?;
        }
        Ok(())
    }

    /// Quiet phases, at most so many, until every client is settled: the world behind them.
    fn quiet<W: Watcher>(
        mut self,
        watcher: &mut W,
        alloc: Global,
        most: u128,
    ) -> Result<World, RunFault>
        requires { self.world.spent ≡ false }
        ensures ok { IfOk result (λ w. Follows (tell_quiet most self.phase self.first (self.now + 1)) self.world w) }
        ensures saw { IfOk result (λ w. StillSaw W.saw self.world watcher.old w watcher.new) }
        ensures stays { StaysOn W.stays watcher.old watcher.new }
        ensures long { IfErr result (Exceeds (tell_quiet most self.phase self.first (self.now + 1)) self.world) }
    {
        for _ in 0..most {
            if self.world.settled() {
                return Ok(self.world);
            }
            let now = self.now.checked_add(1).ok_or(RunFault::NoMemory)?;
            self.phase(watcher, alloc, &[], now)?;
        }
        Ok(self.world)
    }

    /// The end of a run: quiet phases, at most as many as the plan lets there be, until every client is
    /// settled. Behind all phases of a script the run is then whole, and its journal live.
    pub fn settle<W: Watcher>(self, watcher: &mut W, alloc: Global) -> Result<World, RunFault>
        requires { self.world.spent ≡ false }
        ensures ok { IfOk result (λ w. Follows (tell_quiet (quiet_limit self.world.plan) self.phase self.first
            (self.now + 1)) self.world w) }
        ensures saw { IfOk result (λ w. StillSaw W.saw self.world watcher.old w watcher.new) }
        ensures stays { StaysOn W.stays watcher.old watcher.new }
        ensures whole { IfOk result (λ w. (script : Script) → script.settle ≡ true → StandsBehind script self → IsWhole script w) }
        ensures long { IfErr result (Exceeds (tell_quiet (quiet_limit self.world.plan) self.phase self.first (self.now + 1)) self.world) }
    {
        let most = quiet_limit(self.world.plan());
        self.quiet(watcher, alloc, most)
    }
}
