//! Whether a plan has what the definitions need.
ghost use Rattle.std.specs.Prelude.{◌≡◌, ◌↔◌, ◌<◌, ◌&&◌, ℕ, length, slice_index_or, All, IsTrue};
ghost use Rattle.dpc_model.specs.Fragments.{IsSound, IsSoundKind};
ghost use Rattle.dpc_model.specs.declared.operators.OpSpec.{OpSpec};
ghost use Rattle.dpc_model.specs.declared.plans.FragSpec.{FragSpec};
ghost use Rattle.dpc_model.specs.declared.plans.SourceSpec.{SourceSpec};
ghost use Rattle.trial_ideal.specs.Sound.{HasOrder, IsSoundRead};

use dpc_model::operators::{OpKind, OpSpec};
use dpc_model::plans::{FragSpec, Plan, SourceSpec, StreamRef};
use dpc_model::tuples::Tuple;

/// Whether tuples are in order of time.
fn are_in_order(tuples: &[Tuple]) -> bool
    ensures { IsTrue result ↔ HasOrder tuples.now }
{
    for i in 1..tuples.len() {
        if tuples[i].stime < tuples[i - 1].stime {
            return false;
        }
    }
    true
}

/// Whether every log is in order of time.
fn logs_are_in_order(sources: &[SourceSpec]) -> bool
    ensures { IsTrue result ↔ All (λ (s : SourceSpec). HasOrder s.log) sources.now }
{
    sources
        .iter()
        .all(|source| are_in_order(source.log.as_slice()))
}

/// Whether windows have a size, and a step from one to the next.
fn kind_is_sound(kind: &OpKind) -> bool
    ensures { IsTrue result ↔ IsSoundKind kind.now }
{
    match kind {
        OpKind::Aggregate(size, step, _, _) => *size > 0 && *step > 0,
        _ => true,
    }
}

fn operators_are_sound(ops: &[OpSpec]) -> bool
    ensures { IsTrue result ↔ All (λ (op : OpSpec). IsSoundKind op.kind) ops.now }
{
    ops.iter().all(|op| kind_is_sound(&op.kind))
}

fn fragments_are_sound(frags: &[FragSpec]) -> bool
    ensures { IsTrue result ↔ All (λ (f : FragSpec). All (λ (op : OpSpec). IsSoundKind op.kind) f.ops) frags.now }
{
    frags
        .iter()
        .all(|frag| operators_are_sound(frag.ops.as_slice()))
}

/// Whether a stream is a source's or that of one of the first `frags` fragments.
fn stands_before(stream: StreamRef, frags: u64) -> bool
    ensures { IsTrue result ↔ IsSoundRead frags stream }
{
    match stream {
        StreamRef::Source(_) => true,
        StreamRef::Frag(f) => f < frags,
    }
}

fn all_stand_before(streams: &[StreamRef], frags: u64) -> bool
    ensures { IsTrue result ↔ All (IsSoundRead frags) streams.now }
{
    streams.iter().all(|stream| stands_before(*stream, frags))
}

/// Whether each fragment reads sources and fragments before it.
fn fragments_read_before(frags: &[FragSpec]) -> bool
    ensures { IsTrue result ↔ ((i : ℕ) (d : FragSpec) → i < length frags.now → All (IsSoundRead i) (slice_index_or frags.now i d).inputs) }
{
    for i in 0..frags.len() {
        if !all_stand_before(frags[i].inputs.as_slice(), i as u64) {
            return false;
        }
    }
    true
}

fn are_all(first: bool, second: bool, third: bool) -> bool
    ensures { result ≡ (first && second && third) }
{
    first && second && third
}

/// Whether the definitions hold of a plan: every log is in order of time, windows have a size and a
/// step, and each fragment reads sources and fragments before it.
pub fn is_sound(plan: &Plan) -> bool
    ensures { IsTrue result ↔ IsSound plan.now }
{
    let logs = logs_are_in_order(plan.sources.as_slice());
    let kinds = fragments_are_sound(plan.frags.as_slice());
    let reads = fragments_read_before(plan.frags.as_slice());
    are_all(logs, kinds, reads)
}
