//! How far sources are.
ghost use Rattle.std.specs.Prelude.{◌≡◌, if◌then◌else◌};
ghost use Rattle.dpc_lists.specs.Lists.{changed};
ghost use Rattle.picture_model.specs.Points.{emitted_to, released_to};
ghost use Rattle.world_model.specs.Worlds.{is_release_time};

use dpc_model::plans::Plan;
use picture_model::columns::SourcePoint;

/// Whether a source's event may have this time.
fn is_release_time(plan: &Plan, time: u64) -> bool
    ensures { result ≡ is_release_time plan.now time }
{
    1 <= time && time <= plan.end
}

/// What was logged below a time is sent.
fn emit_to(sources: &mut Vec<SourcePoint>, source: usize, time: u64)
    ensures { sources.new.items ≡ changed source (emitted_to time) sources.old.items }
{
    if source >= sources.len() {
        return;
    }
    let point = sources[source];
    sources[source] = SourcePoint {
        sent: point.sent.max(time),
        bound: point.bound,
    };
}

/// And it was said that this is all.
fn release_to(sources: &mut Vec<SourcePoint>, source: usize, time: u64)
    ensures { sources.new.items ≡ changed source (released_to time) sources.old.items }
{
    if source >= sources.len() {
        return;
    }
    let point = sources[source];
    sources[source] = SourcePoint {
        sent: point.sent.max(time),
        bound: point.bound.max(time),
    };
}

/// A source emits what it logged below a time.
pub(crate) fn emit(sources: &mut Vec<SourcePoint>, plan: &Plan, source: usize, time: u64)
    ensures { sources.new.items
        ≡ (if is_release_time plan.now time then changed source (emitted_to time) sources.old.items else sources.old.items) }
{
    if !is_release_time(plan, time) {
        return;
    }
    emit_to(sources, source, time);
}

/// A source releases what it logged below a time.
pub(crate) fn release(sources: &mut Vec<SourcePoint>, plan: &Plan, source: usize, time: u64)
    ensures { sources.new.items
        ≡ (if is_release_time plan.now time then changed source (released_to time) sources.old.items else sources.old.items) }
{
    if !is_release_time(plan, time) {
        return;
    }
    release_to(sources, source, time);
}
