//! The world of a run.
ghost use Rattle.std.specs.Prelude.{◌≡◌, ◌↔◌, ℕ, [], ◌∷◌, ◌++◌, true, false, Err, IfOk, OnOk, OnErr};
ghost use Rattle.world_model.specs.Worlds.{passes_limit, WouldReach};
ghost use Rattle.world_model.specs.Safe.{IsSafeStep};
ghost use Rattle.law_fit.specs.Fits.{CanRun};
ghost use Rattle.law_promises.specs.Promises.{KeepsPromises};
ghost use Rattle.world_parts.specs.Events.{IsSomeWorld, Happened, WouldPass};
ghost use Rattle.world_parts.specs.declared.faults.EventFault.TheVariants as part_fault;
ghost use Rattle.world_core.specs.Runs.{world_of};
ghost use Rattle.world_core.specs.declared.faults.ApplyFault.TheVariants as fault;

use crate::faults::ApplyFault;
use actor_roster::roster::Roster;
use dpc_lists::faults::NoMemory;
use dpc_model::messages::Event;
use dpc_model::plans::Plan;
use std::alloc::Global;
use std::marker::Model;
use world_parts::faults::EventFault;
use world_parts::parts::WorldParts;

mod handing;
mod lending;
mod telling;

/// A run: what stands is what its events make of the opening, one after another. An event that wants
/// memory, or would pass a limit of runs, leaves it spent. Contracts see a `RunOf`.
#[derive(Drop)]
pub struct World {
    roster: Roster,
    parts: WorldParts,
    events: Vec<Event>,
    spent: bool,
}

impl Model for World {
    ghost use Rattle.std.specs.Prelude.{◌≡◌, false};
    ghost use Rattle.std.specs.Coded.{codes};
    ghost use Rattle.dpc_model.specs.FormulaCode.{coded_formula};
    ghost use Rattle.world_model.specs.Worlds.{run};
    ghost use Rattle.law_fit.specs.Fits.{CanRun};
    ghost use Rattle.world_parts.specs.Parts.{StandsForWorld};
    ghost use Rattle.world_core.specs.Runs.{RunOf};

    ghost Value = { RunOf };

    ghost coded = { Prim.hlevel (codes, coded_formula) };

    ghost view = { λ w. record { plan = w.roster; events = w.events.items; spent = w.spent } };

    ghost invariant = { λ w. CanRun w.roster × (w.spent ≡ false → StandsForWorld w.roster w.parts (run w.roster w.events.items)) };
}

/// What an event makes of all actors and envelopes.
fn happen(
    alloc: Global,
    roster: &Roster,
    parts: &mut WorldParts,
    e: Event,
) -> Result<(), EventFault>
    requires plan { CanRun roster.now }
    requires some { IsSomeWorld roster.now parts.old }
    ensures ok { OnOk result (Happened roster.now parts.old parts.new e) }
    ensures long { (envelopes items : ℕ) → result ≡ Err (part_fault.TooLong envelopes items)
        → WouldPass roster.now parts.old e envelopes items }
{
    match e {
        Event::Phase(number) => parts.open_phase(roster, number),
        Event::Emit(actor, time) => parts.emit(alloc, roster, u64::from(actor), time)?,
        Event::Release(actor, time) => parts.release(alloc, roster, u64::from(actor), time)?,
        Event::Cut(a, b) => parts.cut(roster, u64::from(a), u64::from(b))?,
        Event::Heal(a, b) => parts.heal(roster, u64::from(a), u64::from(b)),
        Event::Crash(actor) => parts.crash(roster, u64::from(actor)),
        Event::Restart(actor, inc) => parts.restart(alloc, roster, u64::from(actor), inc)?,
        Event::Deliver(k) => parts.deliver(alloc, roster, k)?,
        Event::Tick(actor, now) => parts.tick(alloc, roster, u64::from(actor), now)?,
        Event::Mill(actor, count) => parts.mill(alloc, roster, u64::from(actor), count)?,
    }
    Ok(())
}

impl World {
    /// No event happened yet.
    pub fn new(alloc: Global, plan: Plan) -> Result<World, NoMemory>
        requires { CanRun plan }
        ensures { IfOk result (λ w. w ≡ record { plan = plan; events = []; spent = false }) }
    {
        let parts = WorldParts::new(alloc, &plan)?;
        let roster = Roster::new(alloc, plan)?;
        Ok(World {
            roster,
            parts,
            events: Vec::new(alloc),
            spent: false,
        })
    }

    /// One more event happens. The run keeps all its promises, and the event does what is promised of it: a
    /// tick serves, and rec_done is sent surely. Where it wants memory, or would pass a limit, the world is
    /// spent, and its events are those that were.
    pub fn apply(&mut self, alloc: Global, e: Event) -> Result<(), ApplyFault>
        ensures ok { OnOk result (self.new ≡ record self.old { events = self.old.events ++ e ∷ [] }) }
        ensures within { OnOk result (passes_limit (world_of self.old) e ≡ false) }
        ensures keeps { OnOk result (KeepsPromises self.new.plan self.new.events) }
        ensures step { OnOk result (IsSafeStep (world_of self.old) e) }
        ensures long { (envelopes items : ℕ) → result ≡ Err (fault.TooLong envelopes items)
            → WouldReach (world_of self.old) e envelopes items }
        ensures err { OnErr result (self.new ≡ record self.old { spent = true }) }
        ensures spent { result ≡ Err fault.Spent ↔ self.old.spent ≡ true }
    {
        if self.spent {
            return Err(ApplyFault::Spent);
        }
        // spent, but where all goes well
        self.spent = true;
        self.events.reserve(1)?;
        happen(alloc, &self.roster, &mut self.parts, e)?;
        let Ok(()) = self.events.push(e) else {
            unreachable!()
        };
        self.spent = false;
        Ok(())
    }

    /// The plan.
    pub fn plan(&self) -> &Plan
        ensures { result.now ≡ self.now.plan }
    {
        self.roster.plan()
    }

    /// The events in order.
    pub fn journal(&self) -> &[Event]
        ensures { result.now ≡ self.now.events }
    {
        self.events.as_slice()
    }

    /// Whether an earlier event wanted memory, or would have passed a limit.
    pub fn is_spent(&self) -> bool
        ensures { result ≡ self.now.spent }
    {
        self.spent
    }
}
