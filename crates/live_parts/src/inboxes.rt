//! The envelopes that wait, an inbox for each addressee.
ghost use Rattle.std.specs.Prelude.{◌≡◌, ◌==◌, ◌≤◌, ◌<◌, ◌++◌, ◌∷◌, if◌then◌else◌, ℕ, true, false, not, [], List, flat_map, length, Some, OnOk, slice_get};
ghost use Rattle.dpc_lists.specs.Lists.{nth, changed, list_any};
ghost use Rattle.world_model.specs.Worlds.{World as PlainWorld, Envelope};
ghost use Rattle.world_model.specs.Schedules.{Undelivered, Progress, may_deliver, is_first_of_its_way, delivery_made, pending_in, newly_sent, all_delivered};
ghost use Rattle.law_schedules.proofs.Calm.{IsGrown};
ghost use Rattle.world_core.specs.Runs.{world_of};
ghost use Rattle.live_parts.specs.Dues.{deliveries_in, deliveries_to};
ghost use Rattle.live_parts.specs.Inboxes.{StandsForWaiting, is_due, is_first_from, made_from, newly_awaited, opened};

use crate::due::Due;
use crate::inbox::Inbox;
use dpc_lists::faults::NoMemory;
use dpc_model::scripts::Directive;
use std::alloc::{AllocError, Global};
use std::marker::Model;
use world_core::world::World;

/// The envelopes that wait, an inbox for each addressee by number, as far as one was needed. Contracts see a
/// list for each.
#[derive(Drop)]
pub struct Inboxes {
    boxes: Vec<Inbox>,
}

impl Model for Inboxes {
    ghost use Rattle.std.specs.Coded.{codes};
    ghost use Rattle.std.specs.Prelude.{List};
    ghost use Rattle.live_parts.specs.declared.inbox.Awaited.{Awaited};

    ghost Value = { List (List Awaited) };

    ghost coded = { Prim.hlevel codes };

    ghost view = { λ b. b.boxes.items };
}

/// Makes an inbox for each actor below a number.
#[tactic(auto, using(crate::proofs::Filing::nth_more))]
fn reach(alloc: Global, boxes: &mut Vec<Inbox>, count: usize) -> Result<(), AllocError>
    ensures each { OnOk result ((t : ℕ) → nth [] boxes.new.items t ≡ nth [] boxes.old.items t) }
    ensures many { OnOk result (count ≤ length boxes.new.items) }
{
    for _ in boxes.len()..count {
        boxes.push(Inbox::new(alloc))?;
    }
    Ok(())
}

/// A phase with these directives opens, for each inbox.
fn open_all(
    alloc: Global,
    boxes: &mut Vec<Inbox>,
    directives: &[Directive],
) -> Result<(), AllocError>
    ensures { OnOk result ((t : ℕ) → nth [] boxes.new.items t ≡ opened t directives.now (nth [] boxes.old.items t)) }
{
    for to in 0..boxes.len() {
        boxes[to].open_phase(alloc, to as u64, directives)?;
    }
    Ok(())
}

/// The first envelope from a sender to an addressee is delivered once.
#[tactic(auto, using(crate::proofs::Filing::changed_set, crate::proofs::Filing::changed_past))]
fn deliver_in(boxes: &mut Vec<Inbox>, sender: u64, to: u64)
    ensures { boxes.new.items ≡ changed to (made_from sender) boxes.old.items }
{
    let place = to as usize;
    if place < boxes.len() {
        boxes[place].deliver(sender);
    }
}

/// Whether the first from a sender to an addressee has this number.
fn is_first_in(boxes: &Vec<Inbox>, sender: u64, to: u64, number: u64) -> bool
    ensures { result ≡ is_first_from sender number (nth [] boxes.now.items to) }
{
    match boxes.get(to as usize) {
        Some(inbox) => inbox.is_first(sender, number),
        None => false,
    }
}

/// Appends the deliveries of what waits at an actor.
fn add_due_in(
    boxes: &Vec<Inbox>,
    world: &World,
    actor: u32,
    due: &mut Vec<Due>,
) -> Result<(), NoMemory>
    requires { world.now.spent ≡ false }
    ensures { OnOk result (due.new.items ≡ due.old.items ++ deliveries_in (world_of world.now) actor (nth [] boxes.now.items actor)) }
{
    if let Some(inbox) = boxes.get(actor as usize) {
        inbox.add_due(world, actor, due)?;
    }
    Ok(())
}

/// One more waits at a place.
#[tactic(auto, using(crate::proofs::Filing::set_box))]
fn push_at(boxes: &mut Vec<Inbox>, place: usize, number: u64, sender: u64) -> Result<(), AllocError>
    requires { place < length boxes.old.items }
    ensures { OnOk result ((t : ℕ) → nth [] boxes.new.items t
        ≡ nth [] boxes.old.items t ++ (if t == place then newly_awaited number sender ∷ [] else [])) }
{
    boxes[place].push(number, sender)?;
    Ok(())
}

impl Inboxes {
    /// Nothing waits.
    pub fn new(alloc: Global) -> Inboxes
        ensures { (w : PlainWorld) → StandsForWaiting result w [] }
    {
        Inboxes {
            boxes: Vec::new(alloc),
        }
    }

    /// Whether the first of its way that waits has this number.
    #[tactic(auto, using(crate::proofs::Ends::ends_some, crate::proofs::Ends::ends_none))]
    fn is_first_of_its_way(&self, world: &World, number: u64) -> bool
        requires { world.now.spent ≡ false }
        ensures { (w : PlainWorld) (xs : List Undelivered) → w ≡ world_of world.now → StandsForWaiting self.now w xs
            → result ≡ is_first_of_its_way w number xs }
    {
        match world.ends(number) {
            Some((sender, to)) => is_first_in(&self.boxes, sender, to, number),
            None => false,
        }
    }

    /// Whether an envelope may be delivered now.
    pub fn may_deliver(&self, world: &World, number: u64) -> bool
        requires { world.now.spent ≡ false }
        ensures { (p : Progress) → p.world ≡ world_of world.now → StandsForWaiting self.now p.world p.waiting
            → result ≡ may_deliver p number }
    {
        world.may_come(number) && self.is_first_of_its_way(world, number)
    }

    /// The first envelope that goes from one actor to another was delivered once.
    #[tactic(auto, using(crate::proofs::Filing::made_boxes))]
    pub fn deliver(&mut self, sender: u64, to: u64)
        ensures { (w : PlainWorld) (xs : List Undelivered) (k : ℕ) (e : Envelope) → StandsForWaiting self.old w xs
            → slice_get w.envelopes k ≡ Some e → e.sender ≡ sender → e.to ≡ to → is_first_of_its_way w k xs ≡ true
            → StandsForWaiting self.new w (delivery_made k xs) }
    {
        deliver_in(&mut self.boxes, sender, to);
    }

    /// A phase with these directives opens: what was sent in the one before it becomes pending, is repeated or lost.
    #[tactic(auto, using(crate::proofs::Filing::opened_boxes))]
    pub fn open_phase(&mut self, alloc: Global, directives: &[Directive]) -> Result<(), NoMemory>
        ensures { OnOk result ((w : PlainWorld) (xs : List Undelivered) → StandsForWaiting self.old w xs
            → StandsForWaiting self.new w (pending_in w directives.now xs)) }
    {
        open_all(alloc, &mut self.boxes, directives)?;
        Ok(())
    }

    /// One more waits.
    fn push(&mut self, alloc: Global, number: u64, sender: u64, to: u64) -> Result<(), NoMemory>
        ensures { OnOk result ((t : ℕ) → nth [] self.new t
            ≡ nth [] self.old t ++ (if t == to then newly_awaited number sender ∷ [] else [])) }
    {
        let count = (to as usize).checked_add(1).ok_or(NoMemory)?;
        reach(alloc, &mut self.boxes, count)?;
        push_at(&mut self.boxes, to as usize, number, sender)?;
        Ok(())
    }

    /// The envelopes from a number on were sent.
    pub fn take_in(&mut self, alloc: Global, world: &World, first: u64) -> Result<(), NoMemory>
        requires { world.now.spent ≡ false }
        ensures { OnOk result ((w : PlainWorld) (xs : List Undelivered) → StandsForWaiting self.old w xs
            → IsGrown w (world_of world.now) → first ≡ length w.envelopes
            → StandsForWaiting self.new (world_of world.now) (xs ++ newly_sent w (world_of world.now))) }
    {
        for number in first..world.envelope_count() {
            if let Some((sender, to)) = world.ends(number) {
                self.push(alloc, number, sender, to)?;
            }
        }
        Ok(())
    }

    fn any_due(&self, world: &World) -> bool
        requires { world.now.spent ≡ false }
        ensures { result ≡ list_any (list_any (is_due (world_of world.now))) self.now }
    {
        self.boxes.iter().any(|inbox| inbox.has_due(world))
    }

    /// Whether one that is pending may come.
    pub fn has_due(&self, world: &World) -> bool
        requires { world.now.spent ≡ false }
        ensures { (p : Progress) → p.world ≡ world_of world.now → StandsForWaiting self.now p.world p.waiting
            → not result ≡ all_delivered p }
    {
        self.any_due(world)
    }

    /// Appends a delivery of each that is pending for an addressee and may come, as often as it is still to
    /// come, in order of number.
    pub fn add_due(&self, world: &World, actor: u32, due: &mut Vec<Due>) -> Result<(), NoMemory>
        requires { world.now.spent ≡ false }
        ensures { OnOk result ((xs : List Undelivered) → StandsForWaiting self.now (world_of world.now) xs
            → due.new.items ≡ due.old.items ++ flat_map (deliveries_to (world_of world.now) actor) xs) }
    {
        add_due_in(&self.boxes, world, actor, due)?;
        Ok(())
    }
}
