//! What a name stands for.
ghost use Rattle.std.specs.Prelude.{◌≡◌, map};
ghost use Rattle.dpc_model.specs.ScriptText.{stream_name};
ghost use Rattle.script_rules.specs.Drafts as spec;
ghost use Rattle.script_rules.specs.Reasons.{is_among};

use crate::draft::Draft;
use crate::fragments::has_operator;
use crate::named::{has_name, place_of};
use dpc_model::operators::Wire;
use dpc_model::plans::StreamRef;

impl Draft {
    /// The number of the source of that name.
    pub fn source_named(&self, name: &[u8]) -> Option<u64>
        ensures { result ≡ spec.source_named self.now name.now }
    {
        place_of(name, self.sources.as_slice())
    }

    /// Whether a name is taken.
    pub fn is_name_taken(&self, name: &[u8]) -> bool
        ensures { result ≡ is_among name.now (spec.names self.now) }
    {
        has_name(name, self.sources.as_slice())
            || has_name(name, self.frags.as_slice())
            || has_operator(name, self.frags.as_slice())
            || has_name(name, self.clients.as_slice())
    }

    /// The stream of that name.
    pub fn stream_named(&self, name: &[u8]) -> Option<StreamRef>
        ensures { result ≡ spec.stream_named self.now name.now }
    {
        match self.source_named(name) {
            Some(source) => Some(StreamRef::Source(source)),
            None => match place_of(name, self.frags.as_slice()) {
                Some(frag) => Some(StreamRef::Frag(frag)),
                None => None,
            },
        }
    }

    /// The name of a stream, and no byte where there is none of that number.
    fn name_of(&self, stream: StreamRef) -> &[u8]
        ensures { result.now ≡ stream_name (spec.plan_of self.now) stream }
    {
        match stream {
            StreamRef::Source(s) => match self.sources.get(s as usize) {
                Some(source) => source.name.as_slice(),
                None => &[],
            },
            StreamRef::Frag(f) => match self.frags.get(f as usize) {
                Some(frag) => frag.name.as_slice(),
                None => &[],
            },
        }
    }

    /// The place of the first one of these streams that has that name.
    fn place_of_stream(&self, name: &[u8], streams: &[StreamRef]) -> Option<u64>
        ensures { result ≡ spec.place_of_name name.now (map (stream_name (spec.plan_of self.now)) streams.now) }
    {
        for (i, stream) in streams.iter().enumerate() {
            if name == self.name_of(*stream) {
                return Some(i as u64);
            }
        }
        None
    }

    /// What an operator of the last fragment may read by that name: a port, or an operator before it.
    pub fn wire_named(&self, name: &[u8]) -> Option<Wire>
        ensures { result ≡ spec.wire_named self.now name.now }
    {
        let frag = self.last_frag()?;
        match self.place_of_stream(name, frag.inputs.as_slice()) {
            Some(port) => Some(Wire::Port(port)),
            None => match place_of(name, frag.ops.as_slice()) {
                Some(op) => Some(Wire::Op(op)),
                None => None,
            },
        }
    }
}
