//! Events that happen one after another in the world of a run, each seen by who watches it.
ghost use Rattle.std.specs.Prelude.{◌≡◌, false, fold, OnOk, IfErr};
ghost use Rattle.world_model.specs.Schedules.{tell, tell_all, tell_directive};
ghost use Rattle.run_watchers.specs.Watching.{StillSaw, StaysOn};
ghost use Rattle.lockstep.specs.Locking.{Follows, Exceeds};

use crate::faults::RunFault;
use dpc_model::messages::Event;
use dpc_model::scripts::Directive;
use live_parts::asking::event_of;
use run_watchers::watchers::Watcher;
use std::alloc::Global;
use world_core::world::World;

/// One event.
pub fn tell<W: Watcher>(
    world: &mut World,
    watcher: &mut W,
    alloc: Global,
    event: Event,
) -> Result<(), RunFault>
    ensures ok { OnOk result (Follows (λ x. tell x event) world.old world.new) }
    ensures saw { OnOk result (StillSaw W.saw world.old watcher.old world.new watcher.new) }
    ensures stays { StaysOn W.stays watcher.old watcher.new }
    ensures long { IfErr result (Exceeds (λ x. tell x event) world.old) }
{
    world.apply(alloc, event)?;
    watcher.see(alloc, world, event)?;
    Ok(())
}

/// Events in order.
pub fn tell_all<W: Watcher>(
    world: &mut World,
    watcher: &mut W,
    alloc: Global,
    events: &[Event],
) -> Result<(), RunFault>
    ensures ok { OnOk result (Follows (λ x. tell_all x events.now) world.old world.new) }
    ensures saw { OnOk result (StillSaw W.saw world.old watcher.old world.new watcher.new) }
    ensures stays { StaysOn W.stays watcher.old watcher.new }
    ensures long { IfErr result (Exceeds (λ x. tell_all x events.now) world.old) }
{
    for event in events {
        tell(world, watcher, alloc, *event)?;
    }
    Ok(())
}

/// One directive.
fn direct<W: Watcher>(
    world: &mut World,
    watcher: &mut W,
    alloc: Global,
    directive: Directive,
) -> Result<(), RunFault>
    requires { world.old.spent ≡ false }
    ensures ok { OnOk result (Follows (λ x. tell_directive x directive) world.old world.new) }
    ensures saw { OnOk result (StillSaw W.saw world.old watcher.old world.new watcher.new) }
    ensures stays { StaysOn W.stays watcher.old watcher.new }
    ensures long { IfErr result (Exceeds (λ x. tell_directive x directive) world.old) }
{
    if let Some(event) = event_of(world, directive)? {
        tell(world, watcher, alloc, event)?;
    }
    Ok(())
}

/// The directives of a phase in order.
pub fn direct_all<W: Watcher>(
    world: &mut World,
    watcher: &mut W,
    alloc: Global,
    directives: &[Directive],
) -> Result<(), RunFault>
    requires { world.old.spent ≡ false }
    ensures ok { OnOk result (Follows (λ x. fold tell_directive x directives.now) world.old world.new) }
    ensures saw { OnOk result (StillSaw W.saw world.old watcher.old world.new watcher.new) }
    ensures stays { StaysOn W.stays watcher.old watcher.new }
    ensures long { IfErr result (Exceeds (λ x. fold tell_directive x directives.now) world.old) }
{
    for directive in directives {
        direct(world, watcher, alloc, *directive)?;
    }
    Ok(())
}
