//! How far a run is in its script.
ghost use Rattle.std.specs.Prelude.{◌≡◌, ◌&&◌, ◌+◌, ◌==◌, ◌∷◌, if◌then◌else◌, [], ◌++◌, true, false, length, drop, filter, IfOk, OnOk};
ghost use Rattle.dpc_lists.specs.Lists.{is_nil};
ghost use Rattle.dpc_model.specs.declared.scripts.Script.{Script as PlainScript};
ghost use Rattle.law_schedules.proofs.Calm.{IsGrown};
ghost use Rattle.world_core.specs.Runs.{world_of};
ghost use Rattle.world_model.specs.Worlds.{happens, is_up};
ghost use Rattle.world_model.specs.Schedules.{Progress, all_delivered, all_milled, all_ticked, first_progress, has_event, is_free, is_next, may_mill, may_deliver, may_follow, noting, next_progress, is_phase_complete, phase_left, pending_in, delivery_made, targets_in};
ghost use Rattle.live_parts.specs.Dues.{dues_of, tick_in};
ghost use Rattle.live_run.specs.Courses.{IsOf, Stands};

use crate::goals::Goals;
use crate::timetable::Timetable;
use actor_lists::lists::roles_of;
use dpc_lists::faults::NoMemory;
use dpc_model::messages::Event;
use dpc_model::plans::Plan;
use dpc_model::scripts::Directive;
use live_parts::due::Due;
use live_parts::inboxes::Inboxes;
use live_parts::moment::Moment;
use std::alloc::{AllocError, Global};
use world_core::world::World;
use world_parts::slots::MOST_MILLED;

/// What of a run's past decides, beside its world, which event may come next.
#[derive(Drop)]
pub struct Course {
    pub moment: Moment,
    pub inboxes: Inboxes,
    pub goals: Goals,
}

/// Whether a directive has an event.
fn has_event(directive: Directive) -> bool
    ensures { result ≡ has_event directive }
{
    !matches!(directive, Directive::Lose(_, _) | Directive::Repeat(_, _))
}

/// The directives that have an event.
fn with_events(alloc: Global, directives: &[Directive]) -> Result<Vec<Directive>, AllocError>
    ensures { IfOk result (λ todo. todo.items ≡ filter has_event directives.now) }
{
    let mut todo = Vec::new(alloc);
    for directive in directives {
        if has_event(*directive) {
            todo.push(*directive)?;
        }
    }
    Ok(todo)
}

/// Whether a number follows another one.
fn follows(number: u64, last: u64) -> bool
    ensures { result ≡ (number == last + 1) }
{
    number >= 1 && number - 1 == last
}

/// Whether an actor may mill so many buckets at once.
fn may_mill(world: &World, actor: u64, count: u64) -> bool
    requires { world.now.spent ≡ false }
    ensures { result ≡ may_mill (world_of world.now) actor count }
{
    1 <= count && count <= MOST_MILLED && count <= world.ready(actor)
}

impl Course {
    /// Before the first phase.
    pub fn new(alloc: Global, plan: &Plan) -> Result<Course, NoMemory>
        ensures { IfOk result (λ c. (script : PlainScript) → script.plan ≡ plan.now → Stands c (first_progress script)) }
    {
        let roles = roles_of(alloc, plan)?;
        let actors = roles.len();
        let moment = Moment::new(alloc, actors)?;
        let inboxes = Inboxes::new(alloc);
        let goals = Goals::new(alloc, actors)?;
        Ok(Course {
            moment,
            inboxes,
            goals,
        })
    }

    /// Whether nothing is left of a phase.
    fn is_done(&self, world: &World) -> bool
        requires { world.now.spent ≡ false }
        ensures { (p : Progress) → p.world ≡ world_of world.now → Stands self.now p
            → result ≡ (is_nil p.todo && all_ticked p && all_delivered p && all_milled p) }
    {
        self.moment.is_directed()
            && self.moment.all_ticked(world)
            && !self.inboxes.has_due(world)
            && self.goals.are_met(world)
    }

    /// Whether all that the phase must see was done: each actor that is up had its tick, all that is pending and
    /// may come was delivered, and each node stands where it must. It costs as much as there are actors, and
    /// envelopes that wait.
    pub fn is_complete(&self, world: &World) -> bool
        requires { world.now.spent ≡ false }
        ensures { (p : Progress) → p.world ≡ world_of world.now → Stands self.now p → result ≡ is_phase_complete p }
    {
        self.moment.phase == 0 || self.is_done(world)
    }

    /// Whether a phase may follow.
    pub fn has_next(&self, world: &World, timetable: &Timetable) -> bool
        requires { world.now.spent ≡ false }
        ensures { (script : PlainScript) (p : Progress) → IsOf script timetable.now → p.world ≡ world_of world.now
            → Stands self.now p → result ≡ phase_left script p }
    {
        timetable.is_left(self.moment.phase, world.settled())
    }

    /// Whether a phase of this number may open.
    fn may_open(&self, world: &World, timetable: &Timetable, number: u64) -> bool
        requires { world.now.spent ≡ false }
        ensures { (script : PlainScript) (p : Progress) → IsOf script timetable.now → p.world ≡ world_of world.now
            → Stands self.now p → result ≡ (number == p.phase + 1 && is_phase_complete p && phase_left script p) }
    {
        follows(number, self.moment.phase)
            && self.is_complete(world)
            && self.has_next(world, timetable)
    }

    /// Whether an event may come next. It takes no memory.
    pub fn may(&self, world: &World, timetable: &Timetable, e: Event) -> bool
        requires { world.now.spent ≡ false }
        ensures { (script : PlainScript) (p : Progress) → IsOf script timetable.now → p.world ≡ world_of world.now
            → Stands self.now p → result ≡ may_follow script p e }
    {
        match e {
            Event::Phase(number) => self.may_open(world, timetable, number),
            Event::Deliver(k) => self.moment.is_free() && self.inboxes.may_deliver(world, k),
            Event::Tick(actor, now) => {
                self.moment.may_tick(world, actor) && timetable.has_clock(self.moment.phase, now)
            }
            Event::Mill(actor, count) => {
                self.moment.is_free() && may_mill(world, u64::from(actor), count)
            }
            Event::Emit(_, _)
            | Event::Release(_, _)
            | Event::Cut(_, _)
            | Event::Heal(_, _)
            | Event::Crash(_)
            | Event::Restart(_, _) => self.moment.is_next(world, e),
        }
    }

    /// Appends what an actor has to do behind the directives of the open phase: to take what is pending for it, in
    /// order of number, and to tick.
    pub fn add_due(
        &self,
        world: &World,
        timetable: &Timetable,
        actor: u32,
        due: &mut Vec<Due>,
    ) -> Result<(), NoMemory>
        requires { world.now.spent ≡ false }
        ensures { OnOk result ((script : PlainScript) (p : Progress) → IsOf script timetable.now → p.world ≡ world_of world.now
            → Stands self.now p → due.new.items ≡ due.old.items ++ dues_of script p actor) }
    {
        self.inboxes.add_due(world, actor, due)?;
        self.add_tick(world, timetable, actor, due)?;
        Ok(())
    }

    /// Appends an actor's tick, where it may come.
    fn add_tick(
        &self,
        world: &World,
        timetable: &Timetable,
        actor: u32,
        due: &mut Vec<Due>,
    ) -> Result<(), NoMemory>
        requires { world.now.spent ≡ false }
        ensures { OnOk result ((script : PlainScript) (p : Progress) → IsOf script timetable.now → p.world ≡ world_of world.now
            → Stands self.now p → due.new.items ≡ due.old.items ++ tick_in script p actor) }
    {
        if self.moment.may_tick(world, actor) {
            let now = timetable.now(self.moment.phase)?;
            due.push(Due {
                actor,
                event: Event::Tick(actor, now),
            })?;
        }
        Ok(())
    }

    /// A phase with these directives opened.
    fn open_phase(
        &mut self,
        alloc: Global,
        world: &World,
        phase: u64,
        directives: &[Directive],
    ) -> Result<(), NoMemory>
        requires { world.now.spent ≡ false }
        ensures { OnOk result ((p : Progress) → p.world ≡ world_of world.now → Stands self.old p → Stands self.new (record {
          world = p.world;
          phase = phase;
          todo = filter has_event directives.now;
          waiting = pending_in p.world directives.now p.waiting;
          ticked = [];
          targets = if is_nil (filter has_event directives.now) then targets_in p.world else [];
        })) }
    {
        let todo = with_events(alloc, directives)?;
        self.inboxes.open_phase(alloc, directives)?;
        self.moment.open(phase, todo);
        let free = self.moment.is_directed();
        self.goals.begin(world, free)?;
        Ok(())
    }

    /// An envelope was delivered.
    fn deliver(&mut self, world: &World, k: u64)
        requires { world.now.spent ≡ false }
        ensures { (p : Progress) → IsGrown p.world (world_of world.now) → may_deliver p k ≡ true → Stands self.old p
            → Stands self.new (record p { waiting = delivery_made k p.waiting }) }
    {
        if let Some((sender, to)) = world.ends(k) {
            self.inboxes.deliver(sender, to);
        }
    }

    /// An actor ticked.
    fn tick(&mut self, actor: u32)
        ensures { (p : Progress) → is_up p.world actor ≡ true → Stands self.old p
            → Stands self.new (record p { ticked = actor ∷ p.ticked }) }
    {
        self.moment.tick(actor);
    }

    /// The next directive is done.
    fn direct(&mut self)
        ensures { (p : Progress) → Stands self.old p → Stands self.new (record p { todo = drop 1 p.todo }) }
    {
        self.moment.direct();
    }

    /// What an event that might come next changes besides the world.
    #[tactic(auto, using(crate::proofs::Steps::opened_noted, crate::proofs::Steps::delivered_noted, crate::proofs::Steps::ticked_noted, crate::proofs::Steps::milled_noted))]
    fn happen(
        &mut self,
        alloc: Global,
        world: &World,
        timetable: &Timetable,
        e: Event,
    ) -> Result<(), NoMemory>
        requires { world.now.spent ≡ false }
        ensures { OnOk result ((script : PlainScript) (p : Progress) → IsOf script timetable.now
            → world_of world.now ≡ happens p.world e → may_follow script p e ≡ true
            → Stands self.old p → Stands self.new (noting script p e)) }
    {
        match e {
            Event::Phase(number) => {
                let directives = timetable.directives(number);
                self.open_phase(alloc, world, number, directives)?;
            }
            Event::Deliver(k) => self.deliver(world, k),
            Event::Tick(actor, _) => self.tick(actor),
            Event::Mill(_, _) => {}
            Event::Emit(_, _)
            | Event::Release(_, _)
            | Event::Cut(_, _)
            | Event::Heal(_, _)
            | Event::Crash(_)
            | Event::Restart(_, _) => self.direct(),
        }
        Ok(())
    }

    /// Whether the directives of this phase are done, where they were not before.
    fn is_done_since(&self, had: bool, phase: u64) -> bool
        ensures { (p : Progress) → Stands self.now p → result ≡ (had && is_nil p.todo && p.phase == phase) }
    {
        had && self.moment.is_directed() && self.moment.phase == phase
    }

    /// An event that might come next happened, and led to this world. Before it so many envelopes had been sent.
    pub fn note(
        &mut self,
        alloc: Global,
        world: &World,
        timetable: &Timetable,
        sent: u64,
        e: Event,
    ) -> Result<(), NoMemory>
        requires { world.now.spent ≡ false }
        ensures { OnOk result ((script : PlainScript) (p : Progress) → IsOf script timetable.now
            → world_of world.now ≡ happens p.world e → sent ≡ length p.world.envelopes → may_follow script p e ≡ true
            → Stands self.old p → Stands self.new (next_progress script p e)) }
    {
        let had = !self.moment.is_directed();
        let phase = self.moment.phase;
        self.happen(alloc, world, timetable, e)?;
        let done = self.is_done_since(had, phase);
        self.goals.turn(world, done)?;
        self.inboxes.take_in(alloc, world, sent)?;
        Ok(())
    }
}
