//! The envelopes that wait at one addressee.
ghost use Rattle.std.specs.Prelude.{◌≡◌, ◌==◌, ◌<◌, [], ◌∷◌, ◌++◌, false, length, position, slice_index_or, if◌then◌else◌, MatchOption, IfOk, OnOk};
ghost use Rattle.dpc_lists.specs.Lists.{list_any};
ghost use Rattle.world_core.specs.Runs.{world_of};
ghost use Rattle.live_parts.specs.Dues.{deliveries, deliveries_of, deliveries_in};
ghost use Rattle.live_parts.specs.Inboxes.{is_first_from, made_at, made_from, loses_way, repeats_way, becomes_due, is_kept, opened, newly_awaited, is_due};

use crate::due::Due;
use dpc_model::messages::Event;
use dpc_model::scripts::Directive;
use std::alloc::{AllocError, Global};
use std::collections::VecDeque;
use std::marker::Model;
use world_core::world::World;

/// An envelope that waits: how often it is still to come, and whether it was sent before the phase was opened.
#[derive(Clone, Copy, PartialEq, Eq)]
pub struct Awaited {
    pub number: u64,
    pub sender: u64,
    pub left: u64,
    pub pending: bool,
}

/// The envelopes that wait at one addressee, in order of number. Contracts see their list.
#[derive(Drop)]
pub struct Inbox {
    queue: VecDeque<Awaited>,
}

impl Model for Inbox {
    ghost use Rattle.std.specs.Coded.{codes};
    ghost use Rattle.std.specs.Prelude.{List};
    ghost use Rattle.live_parts.specs.declared.inbox.Awaited.{Awaited};

    ghost Value = { List Awaited };

    ghost coded = { Prim.hlevel codes };

    ghost view = { λ b. b.queue.items };
}

/// Whether a directive loses what goes from one actor to another.
fn loses(sender: u64, to: u64, directive: Directive) -> bool
    ensures { result ≡ loses_way sender to directive }
{
    match directive {
        Directive::Lose(a, b) => sender == a && to == b,
        _ => false,
    }
}

/// Whether a directive repeats what goes from one actor to another.
fn repeats(sender: u64, to: u64, directive: Directive) -> bool
    ensures { result ≡ repeats_way sender to directive }
{
    match directive {
        Directive::Repeat(a, b) => sender == a && to == b,
        _ => false,
    }
}

/// Whether one of the directives loses it.
fn is_lost(sender: u64, to: u64, directives: &[Directive]) -> bool
    ensures { result ≡ list_any (loses_way sender to) directives.now }
{
    directives.iter().any(|d| loses(sender, to, *d))
}

/// Whether one of the directives repeats it.
fn is_repeated(sender: u64, to: u64, directives: &[Directive]) -> bool
    ensures { result ≡ list_any (repeats_way sender to) directives.now }
{
    directives.iter().any(|d| repeats(sender, to, *d))
}

/// Whether what waits is pending in a phase with these directives.
fn is_kept(to: u64, directives: &[Directive], one: Awaited) -> bool
    ensures { result ≡ is_kept to directives.now one }
{
    !one.pending && !is_lost(one.sender, to, directives)
}

/// What is pending in a phase with these directives.
fn becomes_due(to: u64, directives: &[Directive], one: Awaited) -> Awaited
    ensures { result ≡ becomes_due to directives.now one }
{
    let left = if is_repeated(one.sender, to, directives) {
        2
    } else {
        1
    };
    Awaited {
        left,
        pending: true,
        ..one
    }
}

/// Whether an envelope that waits is pending, and may come.
fn is_due(world: &World, one: Awaited) -> bool
    requires { world.now.spent ≡ false }
    ensures { result ≡ is_due (world_of world.now) one }
{
    one.pending && world.may_come(one.number)
}

/// Appends what waits before a phase with these directives opens, where it is pending in it.
fn push_due(
    to: u64,
    directives: &[Directive],
    one: Awaited,
    due: &mut VecDeque<Awaited>,
) -> Result<(), AllocError>
    ensures { OnOk result (due.new.items
        ≡ due.old.items ++ (if is_kept to directives.now one then becomes_due to directives.now one ∷ [] else [])) }
{
    if is_kept(to, directives, one) {
        due.push_back(becomes_due(to, directives, one))?;
    }
    Ok(())
}

/// What is pending in a phase with these directives, of what waits before it opens.
#[tactic(auto, using(crate::proofs::Opening::opened_more))]
fn all_due(
    alloc: Global,
    to: u64,
    directives: &[Directive],
    queue: &VecDeque<Awaited>,
) -> Result<VecDeque<Awaited>, AllocError>
    ensures { IfOk result (λ due. due.items ≡ opened to directives.now queue.now.items) }
{
    let mut due = VecDeque::new(alloc);
    for i in 0..queue.len() {
        push_due(to, directives, at(queue, i), &mut due)?;
    }
    Ok(due)
}

/// The place of the first from a sender.
fn place_from(queue: &VecDeque<Awaited>, sender: u64) -> Option<usize>
    ensures { result ≡ position (λ q. q.sender == sender) queue.now.items }
{
    queue.iter().position(|one| one.sender == sender)
}

/// What stands at a place.
fn at(queue: &VecDeque<Awaited>, place: usize) -> Awaited
    requires { place < length queue.now.items }
    ensures { result ≡ slice_index_or queue.now.items place result }
{
    queue[place]
}

/// Whether the first from a sender has this number.
fn is_first_in(queue: &VecDeque<Awaited>, sender: u64, number: u64) -> bool
    ensures { result ≡ is_first_from sender number queue.now.items }
{
    match place_from(queue, sender) {
        Some(place) => at(queue, place).number == number,
        None => false,
    }
}

/// The place of the first from a sender, and what stands there: to deliver that once is to deliver from the sender.
fn first_from(queue: &VecDeque<Awaited>, sender: u64) -> Option<(usize, Awaited)>
    ensures { MatchOption result (queue.now.items ≡ made_from sender queue.now.items)
        (λ found. (found.0 < length queue.now.items) × (made_at found.1 queue.now.items found.0 ≡ made_from sender queue.now.items)) }
{
    match place_from(queue, sender) {
        Some(place) => Some((place, at(queue, place))),
        None => None,
    }
}

/// What stands at a place is delivered once.
fn deliver_at(queue: &mut VecDeque<Awaited>, place: usize, one: Awaited)
    requires { place < length queue.old.items }
    ensures { queue.new.items ≡ made_at one queue.old.items place }
{
    if one.left == 1 {
        queue.remove(place);
    } else {
        queue[place] = Awaited {
            left: one.left.saturating_sub(1),
            ..one
        };
    }
}

/// The first from a sender is delivered once.
fn deliver_from(queue: &mut VecDeque<Awaited>, sender: u64)
    ensures { queue.new.items ≡ made_from sender queue.old.items }
{
    if let Some((place, one)) = first_from(queue, sender) {
        deliver_at(queue, place, one);
    }
}

/// Appends so many deliveries of an envelope to an actor.
fn add_deliveries(actor: u32, number: u64, left: u64, due: &mut Vec<Due>) -> Result<(), AllocError>
    ensures { OnOk result (due.new.items ≡ due.old.items ++ deliveries actor number left) }
{
    for _ in 0..left {
        due.push(Due {
            actor,
            event: Event::Deliver(number),
        })?;
    }
    Ok(())
}

/// Appends the deliveries of what waits, where it is pending and may come.
fn add_one_due(
    world: &World,
    actor: u32,
    one: Awaited,
    due: &mut Vec<Due>,
) -> Result<(), AllocError>
    requires { world.now.spent ≡ false }
    ensures { OnOk result (due.new.items ≡ due.old.items ++ deliveries_of (world_of world.now) actor one) }
{
    if is_due(world, one) {
        add_deliveries(actor, one.number, one.left, due)?;
    }
    Ok(())
}

/// Appends the deliveries of all that waits.
#[tactic(auto, using(crate::proofs::Dues::deliveries_more))]
fn add_all_due(
    world: &World,
    actor: u32,
    queue: &VecDeque<Awaited>,
    due: &mut Vec<Due>,
) -> Result<(), AllocError>
    requires { world.now.spent ≡ false }
    ensures { OnOk result (due.new.items ≡ due.old.items ++ deliveries_in (world_of world.now) actor queue.now.items) }
{
    for i in 0..queue.len() {
        add_one_due(world, actor, at(queue, i), due)?;
    }
    Ok(())
}

impl Inbox {
    /// Nothing waits.
    pub fn new(alloc: Global) -> Inbox
        ensures { result ≡ [] }
    {
        Inbox {
            queue: VecDeque::new(alloc),
        }
    }

    /// Whether the first from a sender has this number.
    pub fn is_first(&self, sender: u64, number: u64) -> bool
        ensures { result ≡ is_first_from sender number self.now }
    {
        is_first_in(&self.queue, sender, number)
    }

    /// The first from a sender is delivered once.
    pub fn deliver(&mut self, sender: u64)
        ensures { self.new ≡ made_from sender self.old }
    {
        deliver_from(&mut self.queue, sender);
    }

    /// One more waits.
    pub fn push(&mut self, number: u64, sender: u64) -> Result<(), AllocError>
        ensures { OnOk result (self.new ≡ self.old ++ newly_awaited number sender ∷ []) }
    {
        self.queue.push_back(Awaited {
            number,
            sender,
            left: 1,
            pending: false,
        })?;
        Ok(())
    }

    /// A phase with these directives opens.
    pub fn open_phase(
        &mut self,
        alloc: Global,
        to: u64,
        directives: &[Directive],
    ) -> Result<(), AllocError>
        ensures { OnOk result (self.new ≡ opened to directives.now self.old) }
    {
        self.queue = all_due(alloc, to, directives, &self.queue)?;
        Ok(())
    }

    /// Whether one that is pending may come.
    pub fn has_due(&self, world: &World) -> bool
        requires { world.now.spent ≡ false }
        ensures { result ≡ list_any (is_due (world_of world.now)) self.now }
    {
        self.queue.iter().any(|one| is_due(world, *one))
    }

    /// Appends a delivery to the actor of each that is pending and may come, as often as it is still to come.
    pub fn add_due(&self, world: &World, actor: u32, due: &mut Vec<Due>) -> Result<(), AllocError>
        requires { world.now.spent ≡ false }
        ensures { OnOk result (due.new.items ≡ due.old.items ++ deliveries_in (world_of world.now) actor self.now) }
    {
        add_all_due(world, actor, &self.queue, due)
    }
}
