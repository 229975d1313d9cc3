//! The event of a directive, and whether an event is that.
ghost use Rattle.std.specs.Prelude.{◌≡◌, false, IfOk};
ghost use Rattle.dpc_model.specs.declared.scripts.Directive.TheVariants as directive;
ghost use Rattle.world_core.specs.Runs.{world_of};
ghost use Rattle.world_model.specs.Schedules.{event_of};
ghost use Rattle.live_parts.specs.Moments.{is_event_of};

use dpc_lists::faults::NoMemory;
use dpc_model::actors::narrow;
use dpc_model::messages::Event;
use dpc_model::scripts::Directive;
use world_core::world::World;

/// The event of a directive, where it has one. A restart takes the next incarnation.
pub fn event_of(world: &World, directive: Directive) -> Result<Option<Event>, NoMemory>
    requires { world.now.spent ≡ false }
    ensures { IfOk result (λ event. event ≡ event_of (world_of world.now) directive) }
{
    Ok(match directive {
        Directive::Emit(source, time) => Some(Event::Emit(narrow(source)?, time)),
        Directive::Release(source, time) => Some(Event::Release(narrow(source)?, time)),
        Directive::Cut(a, b) => Some(Event::Cut(narrow(a)?, narrow(b)?)),
        Directive::Heal(a, b) => Some(Event::Heal(narrow(a)?, narrow(b)?)),
        Directive::Lose(_, _) | Directive::Repeat(_, _) => None,
        Directive::Crash(node) => Some(Event::Crash(narrow(node)?)),
        Directive::Restart(node) => Some(Event::Restart(
            narrow(node)?,
            world.last_inc(node).checked_add(1).ok_or(NoMemory)?,
        )),
    })
}

/// Whether this is the event of a restart of this node, into the incarnation behind its last one.
fn is_restart(world: &World, e: Event, node: u64) -> bool
    requires { world.now.spent ≡ false }
    ensures { result ≡ is_event_of (world_of world.now) (directive.Restart node) e }
{
    match e {
        Event::Restart(actor, inc) => {
            u64::from(actor) == node && inc.checked_sub(1) == Some(world.last_inc(node))
        }
        _ => false,
    }
}

/// Whether an event is that of a directive.
pub fn is_event_of(world: &World, directive: Directive, e: Event) -> bool
    requires { world.now.spent ≡ false }
    ensures { result ≡ is_event_of (world_of world.now) directive e }
{
    match directive {
        Directive::Emit(source, time) => {
            matches!(e, Event::Emit(actor, t) if u64::from(actor) == source && t == time)
        }
        Directive::Release(source, time) => {
            matches!(e, Event::Release(actor, t) if u64::from(actor) == source && t == time)
        }
        Directive::Cut(a, b) => {
            matches!(e, Event::Cut(c, d) if u64::from(c) == a && u64::from(d) == b)
        }
        Directive::Heal(a, b) => {
            matches!(e, Event::Heal(c, d) if u64::from(c) == a && u64::from(d) == b)
        }
        Directive::Lose(_, _) | Directive::Repeat(_, _) => false,
        Directive::Crash(node) => matches!(e, Event::Crash(actor) if u64::from(actor) == node),
        Directive::Restart(node) => is_restart(world, e, node),
    }
}
