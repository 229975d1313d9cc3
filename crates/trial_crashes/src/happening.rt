//! Events that happen in a world, whatever its script says, as far as each may come.
ghost use Rattle.std.specs.Prelude.{◌≡◌, false, OnOk};

use crate::trouble::Trouble;
use dpc_model::messages::Event;
use std::alloc::Global;
use world_core::world::World;

/// Whether an event may come: who acts is up, or down where it restarts, and what comes or is milled is there.
fn may_come(world: &World, event: Event) -> bool
    requires { world.now.spent ≡ false }
{
    match event {
        Event::Phase(_)
        | Event::Emit(_, _)
        | Event::Release(_, _)
        | Event::Cut(_, _)
        | Event::Heal(_, _) => true,
        Event::Crash(actor) | Event::Tick(actor, _) => world.is_up(u64::from(actor)),
        Event::Restart(actor, _) => !world.is_up(u64::from(actor)),
        Event::Deliver(number) => world.may_come(number),
        Event::Mill(actor, count) => count <= world.ready(u64::from(actor)),
    }
}

/// An event happens, where it may come. The answer is whether it did.
fn happen(alloc: Global, world: &mut World, event: Event) -> Result<bool, Trouble>
    requires { world.old.spent ≡ false }
    ensures { OnOk result (world.new.spent ≡ false) }
{
    if !may_come(world, event) {
        return Ok(false);
    }
    world.apply(alloc, event)?;
    Ok(true)
}

/// Events happen in order, as far as each may come. The answer is how many were left out.
pub(crate) fn happen_all(alloc: Global, world: &mut World, events: &[Event]) -> Result<u64, Trouble>
    requires { world.old.spent ≡ false }
    ensures { OnOk result (world.new.spent ≡ false) }
{
    let mut left_out: u64 = 0;
    for event in events {
        if !happen(alloc, world, *event)? {
            left_out = left_out.saturating_add(1);
        }
    }
    Ok(left_out)
}

/// A node crashes, and restarts at once into its next incarnation where it is to.
pub(crate) fn break_node(
    alloc: Global,
    world: &mut World,
    node: u32,
    restarts: bool,
) -> Result<(), Trouble>
    requires { world.old.spent ≡ false }
    ensures { OnOk result (world.new.spent ≡ false) }
{
    happen(alloc, world, Event::Crash(node))?;
    if restarts {
        let next = world.last_inc(u64::from(node)).saturating_add(1);
        happen(alloc, world, Event::Restart(node, next))?;
    }
    Ok(())
}
