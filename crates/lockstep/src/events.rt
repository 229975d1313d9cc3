//! The events of a phase behind its directives, as one list: all are told of the world as it stands then.
ghost use Rattle.std.specs.Prelude.{◌≡◌, ◌-◌, ◌++◌, false, length, flat_map, map, filter, replicate, IfOk, OnOk};
ghost use Rattle.dpc_model.specs.Actors.{nodes_from, roles_of};
ghost use Rattle.dpc_lists.specs.Lists.{range_with_len};
ghost use Rattle.dpc_model.specs.declared.messages.Event.TheVariants.{Deliver, Tick, Mill};
ghost use Rattle.world_model.specs.Worlds.{is_up, ready_at};
ghost use Rattle.world_model.specs.Schedules.{mill_events, deliveries_of, phase_events};
ghost use Rattle.world_core.specs.Runs.{world_of};

use crate::deliveries::{deliveries, fates};
use dpc_lists::faults::NoMemory;
use dpc_model::actors::narrow;
use dpc_model::messages::Event;
use dpc_model::plans::{FragSpec, Plan};
use dpc_model::scripts::Directive;
use std::alloc::{AllocError, Global};
use world_core::world::World;
use world_parts::slots::MOST_MILLED;

fn node_count(frags: &[FragSpec]) -> Result<u64, NoMemory>
    ensures { IfOk result (λ count. count ≡ length (nodes_from 0 frags.now)) }
{
    let mut count: u64 = 0;
    for frag in frags {
        count = count.checked_add(frag.replicas).ok_or(NoMemory)?;
    }
    Ok(count)
}

/// How many actors there are. A number that would pass its range counts as want of memory.
fn actor_count(plan: &Plan) -> Result<u32, NoMemory>
    ensures { IfOk result (λ count. count ≡ length (roles_of plan.now)) }
{
    let nodes = node_count(plan.frags.as_slice())?;
    let senders = nodes
        .checked_add(plan.sources.len() as u64)
        .ok_or(NoMemory)?;
    let actors = senders
        .checked_add(plan.clients.len() as u64)
        .ok_or(NoMemory)?;
    narrow(actors)
}

/// An event, so many times.
fn push_times(events: &mut Vec<Event>, count: u64, event: Event) -> Result<(), AllocError>
    ensures { OnOk result (events.new.items ≡ events.old.items ++ replicate count event) }
{
    for _ in 0..count {
        events.push(event)?;
    }
    Ok(())
}

/// So many buckets of an actor, the most at a time.
fn push_mills(events: &mut Vec<Event>, actor: u32, ready: u64) -> Result<(), AllocError>
    ensures { OnOk result (events.new.items ≡ events.old.items ++ mill_events actor ready) }
{
    push_times(events, ready / MOST_MILLED, Event::Mill(actor, MOST_MILLED))?;
    let rest = ready % MOST_MILLED;
    if rest != 0 {
        events.push(Event::Mill(actor, rest))?;
    }
    Ok(())
}

/// The ready buckets of all actors.
fn push_all_mills(events: &mut Vec<Event>, world: &World, actors: u32) -> Result<(), AllocError>
    requires { world.now.spent ≡ false }
    ensures { OnOk result (events.new.items ≡ events.old.items
        ++ flat_map (λ a. mill_events a (ready_at (world_of world.now) a)) (range_with_len 0 actors)) }
{
    for actor in 0..actors {
        push_mills(events, actor, world.ready(u64::from(actor)))?;
    }
    Ok(())
}

/// The envelopes of the numbers from `first` to below `sent`.
fn push_deliveries(
    events: &mut Vec<Event>,
    world: &World,
    fates: &[Directive],
    first: u64,
    sent: u64,
) -> Result<(), AllocError>
    requires { world.now.spent ≡ false }
    ensures { OnOk result (events.new.items ≡ events.old.items
        ++ flat_map (λ k. replicate (deliveries_of (world_of world.now) fates.now k) (Deliver k)) (range_with_len first (sent - first))) }
{
    for k in first..sent {
        push_times(events, deliveries(world, fates, k), Event::Deliver(k))?;
    }
    Ok(())
}

/// A tick of each actor that is up.
fn push_ticks(
    events: &mut Vec<Event>,
    world: &World,
    actors: u32,
    now: u64,
) -> Result<(), AllocError>
    requires { world.now.spent ≡ false }
    ensures { OnOk result (events.new.items ≡ events.old.items
        ++ map (λ a. Tick a now) (filter (is_up (world_of world.now)) (range_with_len 0 actors))) }
{
    for actor in 0..actors {
        if world.is_up(u64::from(actor)) {
            events.push(Event::Tick(actor, now))?;
        }
    }
    Ok(())
}

/// The events behind these directives: the ready buckets, the envelopes from number `first` to below `sent`, and the ticks.
pub fn phase_events(
    alloc: Global,
    world: &World,
    directives: &[Directive],
    first: u64,
    sent: u64,
    now: u64,
) -> Result<Vec<Event>, NoMemory>
    requires { world.now.spent ≡ false }
    ensures { IfOk result (λ events. events.items ≡ phase_events (world_of world.now) directives.now
        (range_with_len first (sent - first)) now) }
{
    let actors = actor_count(world.plan())?;
    let fates = fates(alloc, directives)?;
    let mut events = Vec::new(alloc);
    push_all_mills(&mut events, world, actors)?;
    push_deliveries(&mut events, world, &fates, first, sent)?;
    push_ticks(&mut events, world, actors, now)?;
    Ok(events)
}
