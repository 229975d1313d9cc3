//! The cursors that nodes must reach in a phase.
ghost use Rattle.std.specs.Prelude.{◌≡◌, ◌==◌, if◌then◌else◌, ℕ, false, not, [], List, length, nat_lt, option_map, IfOk, OnOk};
ghost use Rattle.dpc_lists.specs.Lists.{nth, list_all, list_any, range_with_len};
ghost use Rattle.dpc_model.specs.Actors.{roles_of};
ghost use Rattle.node_model.specs.Nodes.{PlainNode};
ghost use Rattle.world_model.specs.Worlds.{node_at};
ghost use Rattle.world_model.specs.Schedules.{Progress, all_milled, targets_in, targets_left, is_recovering};
ghost use Rattle.world_core.specs.Runs.{world_of};
ghost use Rattle.live_run.specs.Goals.{StandsForTargets, is_reached, goal_in};

use dpc_lists::faults::NoMemory;
use std::alloc::{AllocError, Global};
use std::marker::Model;
use world_core::world::World;

/// The cursor that each actor must reach, 0 where there is none. Contracts see their list.
#[derive(Drop)]
pub struct Goals {
    cursors: Vec<u64>,
    /// Whether there is any: else no node is looked at.
    any: bool,
}

impl Model for Goals {
    ghost use Rattle.std.specs.Coded.{codes};
    ghost use Rattle.std.specs.Prelude.{◌≡◌, List, ℕ, false};
    ghost use Rattle.dpc_lists.specs.Lists.{nth};

    ghost Value = { List ℕ };

    ghost coded = { Prim.hlevel codes };

    ghost view = { λ g. g.cursors.items };

    ghost invariant = { λ g. g.any ≡ false → (a : ℕ) → nth 0 g.cursors.items a ≡ 0 };
}

/// Whether the node that an actor is recovers, and its cursor; `None` where it is none, or is down.
fn node_of(world: &World, actor: u64) -> Option<(bool, u64)>
    requires { world.now.spent ≡ false }
    ensures { result ≡ option_map (λ (n : PlainNode). (n.recovering, n.cursor)) (node_at (world_of world.now) actor) }
{
    let node = world.node(actor)?;
    Some((node.recovering(), node.cursor()))
}

/// The cursor that all ready buckets of an actor lie below.
#[tactic(auto, using(crate::proofs::Reaching::goal_some, crate::proofs::Reaching::goal_none))]
fn goal_in(world: &World, actor: u64) -> Result<u64, NoMemory>
    requires { world.now.spent ≡ false }
    ensures { IfOk result (λ goal. goal ≡ goal_in (world_of world.now) actor) }
{
    match node_of(world, actor) {
        Some((_, cursor)) => cursor.checked_add(world.ready(actor)).ok_or(NoMemory),
        None => Ok(0),
    }
}

/// Whether an actor stands where it must.
#[tactic(auto, using(crate::proofs::Reaching::reached_some, crate::proofs::Reaching::reached_none))]
fn is_reached(world: &World, actor: u64, goal: u64) -> bool
    requires { world.now.spent ≡ false }
    ensures { result ≡ is_reached (world_of world.now) actor goal }
{
    match node_of(world, actor) {
        Some((_, cursor)) => goal <= cursor,
        None => true,
    }
}

/// Whether an actor recovers, is down, or is no node.
#[tactic(auto, using(crate::proofs::Reaching::recovering_some, crate::proofs::Reaching::recovering_none))]
fn is_recovering(world: &World, actor: u64) -> bool
    requires { world.now.spent ≡ false }
    ensures { result ≡ is_recovering (world_of world.now) actor }
{
    match node_of(world, actor) {
        Some((recovering, _)) => recovering,
        None => true,
    }
}

/// The cursors that all ready buckets lie below.
fn set_all(cursors: &mut Vec<u64>, world: &World) -> Result<(), NoMemory>
    requires { world.now.spent ≡ false }
    ensures each { OnOk result ((a : ℕ) → nth 0 cursors.new.items a
        ≡ (if nat_lt a (length cursors.old.items) then goal_in (world_of world.now) a else 0)) }
    ensures many { OnOk result (length cursors.new.items ≡ length cursors.old.items) }
{
    for actor in 0..cursors.len() {
        cursors[actor] = goal_in(world, actor as u64)?;
    }
    Ok(())
}

/// The cursor that an actor must reach.
fn goal_at(cursors: &Vec<u64>, actor: usize) -> u64
    ensures { result ≡ nth 0 cursors.now.items actor }
{
    cursors.get(actor).copied().unwrap_or(0)
}

/// A cursor, or none where the actor recovers.
fn eased(world: &World, actor: u64, goal: u64) -> u64
    requires { world.now.spent ≡ false }
    ensures { result ≡ (if is_recovering (world_of world.now) actor then 0 else goal) }
{
    if goal == 0 || is_recovering(world, actor) {
        0
    } else {
        goal
    }
}

/// None where an actor recovers.
fn ease_all(cursors: &mut Vec<u64>, world: &World)
    requires { world.now.spent ≡ false }
    ensures each { (a : ℕ) → nth 0 cursors.new.items a
        ≡ (if is_recovering (world_of world.now) a then 0 else nth 0 cursors.old.items a) }
    ensures many { length cursors.new.items ≡ length cursors.old.items }
{
    for actor in 0..cursors.len() {
        let goal = goal_at(cursors, actor);
        cursors[actor] = eased(world, actor as u64, goal);
    }
}

/// Whether there is any cursor to reach.
fn has_any(cursors: &[u64]) -> bool
    ensures { result ≡ list_any (λ goal. not (goal == 0)) cursors.now }
{
    cursors.iter().any(|goal| *goal != 0)
}

/// Whether each actor stands where it must.
fn are_reached(cursors: &Vec<u64>, world: &World) -> bool
    requires { world.now.spent ≡ false }
    ensures { result ≡ list_all (λ a. is_reached (world_of world.now) a (nth 0 cursors.now.items a))
        (range_with_len 0 (length cursors.now.items)) }
{
    for actor in 0..cursors.len() {
        let goal = goal_at(cursors, actor);
        if !is_reached(world, actor as u64, goal) {
            return false;
        }
    }
    true
}

impl Goals {
    /// No actor of so many must reach any.
    #[tactic(auto, using(crate::proofs::Reaching::none_given))]
    pub fn new(alloc: Global, actors: usize) -> Result<Goals, AllocError>
        ensures stands { IfOk result (λ g. StandsForTargets g []) }
        ensures many { IfOk result (λ g. length g ≡ actors) }
    {
        Ok(Goals {
            cursors: vec![in alloc; 0; actors]?,
            any: false,
        })
    }

    /// No actor must reach any.
    #[tactic(auto, using(crate::proofs::Reaching::none_given))]
    pub fn clear(&mut self)
        ensures stands { StandsForTargets self.new [] }
        ensures many { length self.new ≡ length self.old }
    {
        self.cursors.fill(0);
        self.any = false;
    }

    /// All that is ready now must be milled.
    pub fn set(&mut self, world: &World) -> Result<(), NoMemory>
        requires { world.now.spent ≡ false }
        ensures stands { OnOk result (length (roles_of (world_of world.now).plan) ≡ length self.old
            → StandsForTargets self.new (targets_in (world_of world.now))) }
        ensures many { OnOk result (length self.new ≡ length self.old) }
    {
        self.any = true;
        set_all(&mut self.cursors, world)?;
        self.any = has_any(self.cursors.as_slice());
        Ok(())
    }

    /// An actor that recovers, or is down, need not reach any more.
    pub fn ease(&mut self, world: &World)
        requires { world.now.spent ≡ false }
        ensures stands { (ts : List (ℕ × ℕ)) → StandsForTargets self.old ts
            → StandsForTargets self.new (targets_left (world_of world.now) ts) }
        ensures many { length self.new ≡ length self.old }
    {
        if self.any {
            ease_all(&mut self.cursors, world);
        }
    }

    /// A phase begins: all that is ready must be milled, where it has no directives.
    pub fn begin(&mut self, world: &World, free: bool) -> Result<(), NoMemory>
        requires { world.now.spent ≡ false }
        ensures stands { OnOk result (length (roles_of (world_of world.now).plan) ≡ length self.old
            → StandsForTargets self.new (if free then targets_in (world_of world.now) else [])) }
        ensures many { OnOk result (length self.new ≡ length self.old) }
    {
        if free {
            self.set(world)?;
        } else {
            self.clear();
        }
        Ok(())
    }

    /// An event happened, the last one of the directives or another one.
    pub fn turn(&mut self, world: &World, done: bool) -> Result<(), NoMemory>
        requires { world.now.spent ≡ false }
        ensures stands { OnOk result ((ts : List (ℕ × ℕ)) → length (roles_of (world_of world.now).plan) ≡ length self.old
            → StandsForTargets self.old ts
            → StandsForTargets self.new (if done then targets_in (world_of world.now) else targets_left (world_of world.now) ts)) }
        ensures many { OnOk result (length self.new ≡ length self.old) }
    {
        if done {
            self.set(world)?;
        } else {
            self.ease(world);
        }
        Ok(())
    }

    /// Whether each actor stands where it must.
    pub fn are_met(&self, world: &World) -> bool
        requires { world.now.spent ≡ false }
        ensures { (p : Progress) → p.world ≡ world_of world.now → StandsForTargets self.now p.targets → result ≡ all_milled p }
    {
        are_reached(&self.cursors, world)
    }
}
