//! A run that keeps to its script.
ghost use Rattle.std.specs.Prelude.{◌≡◌, ◌↔◌, ℕ, true, false, [], Ok, Err, IfOk, OnErr};
ghost use Rattle.law_fit.specs.Fits.{CanRun};
ghost use Rattle.world_model.specs.Schedules.{may, is_live, is_live_so_far};
ghost use Rattle.world_model.specs.Worlds.{WouldReach, passes_limit};
ghost use Rattle.world_core.specs.Runs.{world_of};
ghost use Rattle.world_core.specs.declared.faults.ApplyFault.TheVariants as fault;
ghost use Rattle.live_run.specs.Lives.{IsLost, world_in, with_event};

use crate::course::Course;
use crate::timetable::Timetable;
use dpc_lists::faults::NoMemory;
use dpc_model::messages::Event;
use dpc_model::scripts::Script;
use std::alloc::Global;
use std::marker::Model;
use world_core::faults::ApplyFault;
use world_core::world::World;

mod due;
mod handing;
mod lending;

/// A run so far that keeps to its script: each of its events was one that might come next. Where it wants
/// memory, or an event would pass a limit of runs, it is spent. Contracts see a `LiveRunOf`.
#[derive(Drop)]
pub struct LiveRun {
    world: World,
    timetable: Timetable,
    course: Course,
    spent: bool,
}

impl Model for LiveRun {
    ghost use Rattle.std.specs.Prelude.{◌≡◌, true, false};
    ghost use Rattle.std.specs.Coded.{codes};
    ghost use Rattle.dpc_model.specs.FormulaCode.{coded_formula};
    ghost use Rattle.world_model.specs.Schedules.{progress, is_live_so_far};
    ghost use Rattle.live_run.specs.Courses.{IsOf, Stands};
    ghost use Rattle.live_run.specs.Lives.{LiveRunOf, script_of};

    ghost Value = { LiveRunOf };

    ghost coded = { Prim.hlevel (codes, coded_formula) };

    ghost view = { λ r. record { script = script_of r.world.plan r.timetable; events = r.world.events; spent = r.spent } };

    ghost invariant = { λ r. (is_live_so_far (script_of r.world.plan r.timetable) r.world.events ≡ true)
        × IsOf (script_of r.world.plan r.timetable) r.timetable
        × (r.spent ≡ false → (r.world.spent ≡ false) × Stands r.course (progress (script_of r.world.plan r.timetable) r.world.events)) };
}

impl LiveRun {
    /// No event happened yet.
    pub fn open(alloc: Global, script: Script) -> Result<LiveRun, NoMemory>
        requires { CanRun script.plan }
        ensures { IfOk result (λ r. r ≡ record { script = script; events = []; spent = false }) }
    {
        let Script {
            plan,
            phases,
            settle,
        } = script;
        let timetable = Timetable::new(&plan, phases, settle);
        let course = Course::new(alloc, &plan)?;
        Ok(LiveRun {
            world: World::new(alloc, plan)?,
            timetable,
            course,
            spent: false,
        })
    }

    /// The world.
    pub fn world(&self) -> &World
        ensures plan { result.now.plan ≡ self.now.script.plan }
        ensures events { result.now.events ≡ self.now.events }
        ensures spent { self.now.spent ≡ false → result.now.spent ≡ false }
        ensures live { is_live_so_far self.now.script self.now.events ≡ true }
    {
        &self.world
    }

    /// Whether memory was wanting, or an event would have passed a limit.
    pub fn is_spent(&self) -> bool
        ensures { result ≡ self.now.spent }
    {
        self.spent
    }

    /// Whether an event may come next. It takes no memory, and costs the same wherever the run is; only that of a
    /// phase costs as much as there are actors, and envelopes that wait.
    pub fn may(&self, e: Event) -> bool
        requires { self.now.spent ≡ false }
        ensures { result ≡ may self.now.script self.now.events e }
    {
        self.course.may(&self.world, &self.timetable, e)
    }

    /// Whether the journal is a complete live one of the script.
    pub fn is_complete(&self) -> bool
        requires { self.now.spent ≡ false }
        ensures { result ≡ is_live self.now.script self.now.events }
    {
        !self.course.has_next(&self.world, &self.timetable) && self.course.is_complete(&self.world)
    }

    /// The event happens, where it may come next; where it may not the answer is false, and nothing changes.
    /// Where an event would pass a limit it does not happen. A fault leaves the run spent.
    pub fn apply(&mut self, alloc: Global, e: Event) -> Result<bool, ApplyFault>
        ensures may { IfOk result (λ told. told ≡ may self.old.script self.old.events e) }
        ensures yes { result ≡ Ok true → self.new ≡ with_event self.old e }
        ensures within { result ≡ Ok true → passes_limit (world_of (world_in self.old)) e ≡ false }
        ensures no { result ≡ Ok false → self.new ≡ self.old }
        ensures long { (envelopes items : ℕ) → result ≡ Err (fault.TooLong envelopes items)
            → (self.new ≡ record self.old { spent = true }) × (may self.old.script self.old.events e ≡ true)
            × WouldReach (world_of (world_in self.old)) e envelopes items }
        ensures err { OnErr result (IsLost self.old self.new e) }
        ensures spent { result ≡ Err fault.Spent ↔ self.old.spent ≡ true }
    {
        if self.spent {
            return Err(ApplyFault::Spent);
        }
        if !self.may(e) {
            return Ok(false);
        }
        // spent, but where all goes well
        self.spent = true;
        let sent = self.world.envelope_count();
        self.world.apply(alloc, e)?;
        self.course
            .note(alloc, &self.world, &self.timetable, sent, e)?;
        self.spent = false;
        Ok(true)
    }

    /// Its world.
    pub fn into_world(self) -> World
        ensures plan { result.plan ≡ self.script.plan }
        ensures events { result.events ≡ self.events }
        ensures spent { self.spent ≡ false → result.spent ≡ false }
    {
        self.world
    }
}
