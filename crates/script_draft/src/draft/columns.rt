//! How many columns streams and operators have.
ghost use Rattle.std.specs.Prelude.{◌≡◌, ◌≤◌, ◌∷◌, [], None, map, option_map, unwrap_or, IfOk, IfSome};
ghost use Rattle.dpc_lists.specs.Lists.{nth, last_or};
ghost use Rattle.dpc_model.specs.Columns.{kind_columns, wire_columns};
ghost use Rattle.script_rules.specs.Drafts as spec;
ghost use Rattle.script_draft.specs.Columns.{columns_in, source_columns, outputs_behind, ports_of, outs_of};

use crate::draft::Draft;
use crate::ends::{last_number, number_at};
use dpc_lists::faults::NoMemory;
use dpc_model::operators::{OpKind, Wire};
use dpc_model::plans::{SourceSpec, StreamRef};
use std::alloc::Global;

/// The columns of a stream, by those of the fragments.
fn stream_columns(sources: &[SourceSpec], frags: &[u64], stream: StreamRef) -> u64
    ensures { result ≡ columns_in (source_columns sources.now) frags.now stream }
{
    match stream {
        StreamRef::Source(s) => match sources.get(s as usize) {
            Some(source) => source.columns,
            None => 0,
        },
        StreamRef::Frag(f) => number_at(frags, f),
    }
}

/// The columns of streams, by those of the fragments.
pub(super) fn port_columns(
    alloc: Global,
    sources: &[SourceSpec],
    frags: &[u64],
    streams: &[StreamRef],
) -> Result<Vec<u64>, NoMemory>
    ensures { IfOk result (λ columns. columns.items ≡ map (columns_in (source_columns sources.now) frags.now) streams.now) }
{
    let mut columns = Vec::with_capacity(alloc, streams.len())?;
    for stream in streams {
        columns.push(stream_columns(sources, frags, *stream))?;
    }
    Ok(columns)
}

/// The columns of an operator's result, by those of its first two inputs.
pub(super) fn columns_of_kind(kind: &OpKind, first: u64, second: u64) -> u64
    requires { kind_columns kind.now (first ∷ second ∷ []) ≤ 8 }
    ensures { result ≡ kind_columns kind.now (first ∷ second ∷ []) }
{
    match kind {
        OpKind::Filter(_) | OpKind::Union => first,
        OpKind::Map(columns) => columns.len() as u64,
        OpKind::Join(_, _) => first + second,
        OpKind::Aggregate(_, _, None, aggs) => aggs.len() as u64,
        OpKind::Aggregate(_, _, Some(_), aggs) => aggs.len() as u64 + 1,
    }
}

impl Draft {
    /// The columns of all fragments.
    pub(super) fn outputs(&self, alloc: Global) -> Result<Vec<u64>, NoMemory>
        ensures { IfOk result (λ columns. columns.items ≡ outputs_behind (source_columns self.now.sources) [] self.now.frags) }
    {
        let mut columns = Vec::from_slice(alloc, self.earlier.as_slice())?;
        if self.frags.is_empty() {
            return Ok(columns);
        }
        columns.push(last_number(self.outs.as_slice()))?;
        Ok(columns)
    }

    /// The columns of what an operator of the last fragment reads by that name.
    pub(super) fn columns_of_input(&self, name: &[u8]) -> Option<u64>
        ensures columns { result ≡ option_map (wire_columns (ports_of self.now) (outs_of self.now)) (spec.wire_named self.now name.now) }
        ensures few { IfSome result (λ columns. columns ≤ 8) }
    {
        match self.wire_named(name)? {
            Wire::Port(port) => Some(number_at(self.ports.as_slice(), port)),
            Wire::Op(op) => Some(number_at(self.outs.as_slice(), op)),
        }
    }
}
