//! How far a phase is, apart from what waits and what its nodes must reach.
ghost use Rattle.std.specs.Prelude.{◌≡◌, ◌+◌, ◌<◌, ◌&&◌, ◌||◌, not, true, false, [], ◌∷◌, drop, length, IfOk};
ghost use Rattle.world_model.specs.Worlds.{is_up};
ghost use Rattle.world_model.specs.Schedules.{Progress, is_free, is_next, all_ticked};
ghost use Rattle.dpc_model.specs.Actors.{roles_of};
ghost use Rattle.dpc_lists.specs.Lists.{has, is_nil, nth};
ghost use Rattle.world_core.specs.Runs.{world_of};
ghost use Rattle.live_parts.specs.Moments.{StandsForMoment, next_event};

use crate::asking::{event_of, is_event_of};
use dpc_lists::faults::NoMemory;
use dpc_model::messages::Event;
use dpc_model::scripts::Directive;
use std::alloc::{AllocError, Global};
use world_core::world::World;

/// How far a phase is: its number, its directives that have events and how many of these happened, and
/// which actors ticked.
#[derive(Drop)]
pub struct Moment {
    pub phase: u64,
    pub todo: Vec<Directive>,
    pub done: usize,
    pub ticked: Vec<bool>,
}

impl Moment {
    /// Before the first phase, with so many actors.
    pub fn new(alloc: Global, actors: usize) -> Result<Moment, AllocError>
        ensures stands { IfOk result (λ m. (p : Progress) → p.phase ≡ 0 → p.todo ≡ [] → p.ticked ≡ [] → StandsForMoment m p) }
        ensures many { IfOk result (λ m. length m.ticked.items ≡ actors) }
    {
        Ok(Moment {
            phase: 0,
            todo: Vec::new(alloc),
            done: 0,
            ticked: vec![in alloc; false; actors]?,
        })
    }

    /// Whether no directive is left.
    pub fn is_directed(&self) -> bool
        ensures { (p : Progress) → StandsForMoment self.now p → result ≡ is_nil p.todo }
    {
        self.done >= self.todo.len()
    }

    /// Whether the directives of a phase are done.
    pub fn is_free(&self) -> bool
        ensures { (p : Progress) → StandsForMoment self.now p → result ≡ is_free p }
    {
        self.phase > 0 && self.is_directed()
    }

    /// Whether an event is that of the next directive.
    pub fn is_next(&self, world: &World, e: Event) -> bool
        requires { world.now.spent ≡ false }
        ensures { (p : Progress) → StandsForMoment self.now p → p.world ≡ world_of world.now → result ≡ is_next p e }
    {
        match self.todo.get(self.done) {
            Some(directive) => is_event_of(world, *directive, e),
            None => false,
        }
    }

    /// The event of the next directive, where one is left.
    pub fn next_event(&self, world: &World) -> Result<Option<Event>, NoMemory>
        requires { world.now.spent ≡ false }
        ensures { IfOk result (λ told. (p : Progress) → StandsForMoment self.now p → p.world ≡ world_of world.now
            → told ≡ next_event p) }
    {
        match self.todo.get(self.done) {
            Some(directive) => event_of(world, *directive),
            None => Ok(None),
        }
    }

    /// Whether an actor may have its tick.
    pub fn may_tick(&self, world: &World, actor: u32) -> bool
        requires { world.now.spent ≡ false }
        ensures { (p : Progress) → StandsForMoment self.now p → p.world ≡ world_of world.now
            → result ≡ (is_free p && is_up p.world actor && not (has p.ticked actor)) }
    {
        self.is_free()
            && world.is_up(u64::from(actor))
            && !self.ticked.get(actor as usize).copied().unwrap_or(false)
    }

    /// Whether an actor had its tick, or is not up.
    fn is_served(&self, world: &World, actor: usize) -> bool
        requires { world.now.spent ≡ false }
        ensures { result ≡ (not (is_up (world_of world.now) actor) || nth false self.now.ticked.items actor) }
    {
        !world.is_up(actor as u64) || self.ticked.get(actor).copied().unwrap_or(false)
    }

    /// Whether each actor that is up had its tick.
    pub fn all_ticked(&self, world: &World) -> bool
        requires { world.now.spent ≡ false }
        ensures { (p : Progress) → StandsForMoment self.now p → p.world ≡ world_of world.now
            → length self.now.ticked.items ≡ length (roles_of p.world.plan) → result ≡ all_ticked p }
    {
        for actor in 0..self.ticked.len() {
            if !self.is_served(world, actor) {
                return false;
            }
        }
        true
    }

    /// The next directive is done.
    pub fn direct(&mut self)
        ensures stands { (p q : Progress) → StandsForMoment self.old p → q.phase ≡ p.phase → q.todo ≡ drop 1 p.todo → q.ticked ≡ p.ticked
            → StandsForMoment self.new q }
        ensures many { length self.new.ticked.items ≡ length self.old.ticked.items }
    {
        if self.done < self.todo.len() {
            self.done += 1;
        }
    }

    /// An actor ticked.
    pub fn tick(&mut self, actor: u32)
        ensures stands { (p q : Progress) → actor < length self.old.ticked.items → StandsForMoment self.old p → q.phase ≡ p.phase
            → q.todo ≡ p.todo → q.ticked ≡ actor ∷ p.ticked → StandsForMoment self.new q }
        ensures many { length self.new.ticked.items ≡ length self.old.ticked.items }
    {
        if (actor as usize) < self.ticked.len() {
            self.ticked[actor as usize] = true;
        }
    }

    /// The next phase begins, with these directives.
    pub fn open(&mut self, phase: u64, todo: Vec<Directive>)
        ensures stands { (q : Progress) → q.phase ≡ phase → q.todo ≡ todo.items → q.ticked ≡ [] → StandsForMoment self.new q }
        ensures many { length self.new.ticked.items ≡ length self.old.ticked.items }
    {
        self.phase = phase;
        self.todo = todo;
        self.done = 0;
        self.ticked.fill(false);
    }
}
