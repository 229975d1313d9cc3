//! The lines of fragments, and of all that stands behind them.
ghost use Rattle.std.specs.Prelude.{◌≡◌, ◌<◌, ◌∷◌, ◌++◌, [], ℕ, map, length, is_none, flat_map, OnOk};
ghost use Rattle.dpc_lists.specs.Lists.{list_any};
ghost use Rattle.dpc_model.specs.ScriptText.{stream_name};
ghost use Rattle.script_rules.specs.Reasons as reason;
ghost use Rattle.script_rules.specs.Drafts.{Draft};
ghost use Rattle.script_rules.specs.Checking.{frag_statements};
ghost use Rattle.script_check.specs.Judging.{told};
ghost use Rattle.script_check.specs.Locals as local;
ghost use Rattle.script_check.specs.Behind.{IsBehind, JudgesFragment, JudgesFragments};

use crate::names::{is_taken, name_of_stream, place_of_stream, stream_of};
use crate::operators::Place;
use arrayvec::ArrayVec;
use dpc_model::plans::{FragSpec, Plan, StreamRef};
use script_draft::limits::MOST_FRAGMENTS;
use script_rules::reasons::{PlanFault, Reason};

/// Whether one of these streams has that name.
fn has_stream(name: &[u8], plan: &Plan, streams: &[StreamRef]) -> bool
    ensures { result ≡ reason.is_among name.now (map (stream_name plan.now) streams.now) }
{
    place_of_stream(name, plan, streams).is_some()
}

/// Whether two of these streams have one name.
fn has_twice(plan: &Plan, streams: &[StreamRef]) -> bool
    ensures { result ≡ reason.has_twice (map (stream_name plan.now) streams.now) }
{
    for (i, stream) in streams.iter().enumerate() {
        if has_stream(name_of_stream(plan, *stream), plan, &streams[i + 1..]) {
            return true;
        }
    }
    false
}

/// Whether the name of one of these streams stands for no source and no fragment before.
fn reads_ahead(plan: &Plan, before: &[FragSpec], streams: &[StreamRef]) -> bool
    ensures { result ≡ list_any (λ w. is_none (local.stream_of plan.now.sources before.now w)) (map (stream_name plan.now) streams.now) }
{
    for stream in streams {
        let name = name_of_stream(plan, *stream);
        let None = stream_of(name, plan.sources.as_slice(), before) else {
            continue;
        };
        return true;
    }
    false
}

/// The least reason against the line of a fragment behind these.
fn fault_of_fragment(plan: &Plan, before: &[FragSpec], frag: &FragSpec) -> Option<Reason>
    ensures { result ≡ reason.first_of_tests (local.against_fragment plan.now before.now frag.now) }
{
    let streams = frag.inputs.as_slice();
    if is_taken(frag.name.as_slice(), plan.sources.as_slice(), before) || has_twice(plan, streams) {
        Some(Reason::NameTaken)
    } else if reads_ahead(plan, before, streams) {
        Some(Reason::ReadsAhead)
    } else if before.len() >= MOST_FRAGMENTS {
        Some(Reason::PastLimit)
    } else {
        None
    }
}

/// The line behind the one that tells a delay, where there is one.
fn behind_delay(delay: Option<u64>, line: u64) -> u64
    ensures { result ≡ local.behind_delay delay line }
{
    match delay {
        Some(_) => line.saturating_add(1),
        None => line,
    }
}

/// The line behind a fragment, and its columns; or the first fault.
fn check_fragment(place: Place<'_>, line: u64) -> Result<(u64, u64), PlanFault>
    ensures judged { (n : ℕ) → (d : Draft) → line ≡ told n
        → IsBehind place.entry.plan.now place.entry.before.now place.entry.columns.now d
        → JudgesFragment result n place.entry.plan.now place.entry.before.now place.entry.columns.now place.entry.frag.now d
        (frag_statements place.entry.plan.now place.entry.frag.now) }
    ensures room { OnOk result (length place.entry.before.now < 16) }
{
    if let Some(reason) = fault_of_fragment(place.plan, place.before, place.frag) {
        return Err(PlanFault { line, reason });
    }
    let next = behind_delay(place.frag.delay, line.saturating_add(1));
    place.check_operators(next)
}

/// The line behind all fragments, or the first fault.
pub fn check_fragments(plan: &Plan, line: u64) -> Result<u64, PlanFault>
    ensures { (n : ℕ) → line ≡ told n → JudgesFragments result n plan.now }
{
    let frags = plan.frags.as_slice();
    let mut columns: ArrayVec<u64, MOST_FRAGMENTS> = ArrayVec::new();
    let mut next = line;
    for (i, frag) in frags.iter().enumerate() {
        let place = Place {
            plan,
            before: &frags[..i],
            columns: columns.as_slice(),
            frag,
        };
        match check_fragment(place, next) {
            Ok((behind, own)) => {
                next = behind;
                columns.push(own);
            }
            Err(fault) => return Err(fault),
        }
    }
    Ok(next)
}
