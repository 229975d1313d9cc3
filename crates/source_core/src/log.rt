//! The log of a source, as the plan has it.
ghost use Rattle.std.specs.Prelude.{◌≡◌, ◌<◌, nat_lt, None, length, if◌then◌else◌};
ghost use Rattle.dpc_model.specs.Streams.{InOrder};
ghost use Rattle.dpc_model.specs.Fragments.{log_of};
ghost use Rattle.node_model.specs.Sources.{bound_at};

use dpc_model::plans::Plan;
use dpc_model::streams::count_below;
use dpc_model::tuples::Tuple;

/// What a source logs.
pub(crate) fn log_of(plan: &Plan, number: usize) -> &[Tuple]
    requires { number < length plan.now.sources }
    ensures { result.now ≡ log_of plan.now number }
{
    plan.sources.as_slice()[number].log.as_slice()
}

/// A boundary with the number of logged tuples below it; `None` exactly at 0.
pub(crate) fn bound_at(plan: &Plan, number: usize, bound: u64) -> Option<(u64, u64)>
    requires number { number < length plan.now.sources }
    requires in_order { InOrder (log_of plan.now number) }
    ensures { result ≡ bound_at plan.now number bound }
{
    if bound == 0 {
        return None;
    }
    Some((bound, count_below(log_of(plan, number), bound) as u64))
}

/// The boundary of a release, where it goes past the last one.
pub(crate) fn bound_past(plan: &Plan, number: usize, last: u64, time: u64) -> Option<(u64, u64)>
    requires number { number < length plan.now.sources }
    requires in_order { InOrder (log_of plan.now number) }
    ensures { result ≡ (if nat_lt last time then bound_at plan.now number time else None) }
{
    if last < time {
        return bound_at(plan, number, time);
    }
    None
}
