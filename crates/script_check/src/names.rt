//! Which names are taken, and what names stand for.
ghost use Rattle.std.specs.Prelude.{◌≡◌, map};
ghost use Rattle.dpc_model.specs.ScriptText.{stream_name, wire_word};
ghost use Rattle.script_rules.specs.Drafts.{place_of_name};
ghost use Rattle.script_rules.specs.Reasons.{is_among};
ghost use Rattle.script_check.specs.Locals as local;

use dpc_model::operators::Wire;
use dpc_model::plans::{FragSpec, Plan, SourceSpec, StreamRef};
use script_draft::fragments::has_operator;
use script_draft::named::{has_name, place_of};

/// Whether a source, a fragment or an operator of these has that name.
pub fn is_taken(name: &[u8], sources: &[SourceSpec], frags: &[FragSpec]) -> bool
    ensures { result ≡ is_among name.now (local.names_before sources.now frags.now) }
{
    has_name(name, sources) || has_name(name, frags) || has_operator(name, frags)
}

/// The stream of that name, of these sources and fragments.
pub fn stream_of(name: &[u8], sources: &[SourceSpec], frags: &[FragSpec]) -> Option<StreamRef>
    ensures { result ≡ local.stream_of sources.now frags.now name.now }
{
    match place_of(name, sources) {
        Some(source) => Some(StreamRef::Source(source)),
        None => match place_of(name, frags) {
            Some(frag) => Some(StreamRef::Frag(frag)),
            None => None,
        },
    }
}

/// The name of a stream, and no byte where there is none of that number.
pub fn name_of_stream(plan: &Plan, stream: StreamRef) -> &[u8]
    ensures { result.now ≡ stream_name plan.now stream }
{
    match stream {
        StreamRef::Source(s) => match plan.sources.as_slice().get(s as usize) {
            Some(source) => source.name.as_slice(),
            None => &[],
        },
        StreamRef::Frag(f) => match plan.frags.as_slice().get(f as usize) {
            Some(frag) => frag.name.as_slice(),
            None => &[],
        },
    }
}

/// The name of what an operator reads, and no byte where there is none of that number.
pub fn name_of_wire<'a>(plan: &'a Plan, frag: &'a FragSpec, wire: Wire) -> &'a [u8]
    ensures { result.now ≡ wire_word plan.now frag.now wire }
{
    match wire {
        Wire::Port(p) => match frag.inputs.as_slice().get(p as usize) {
            Some(stream) => name_of_stream(plan, *stream),
            None => &[],
        },
        Wire::Op(i) => match frag.ops.as_slice().get(i as usize) {
            Some(op) => op.name.as_slice(),
            None => &[],
        },
    }
}

/// The place of the first one of these streams that has that name.
pub fn place_of_stream(name: &[u8], plan: &Plan, streams: &[StreamRef]) -> Option<u64>
    ensures { result ≡ place_of_name name.now (map (stream_name plan.now) streams.now) }
{
    for (i, stream) in streams.iter().enumerate() {
        if name == name_of_stream(plan, *stream) {
            return Some(i as u64);
        }
    }
    None
}
