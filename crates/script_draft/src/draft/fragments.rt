//! Lines of fragments.
ghost use Rattle.std.specs.Prelude.{◌≡◌, ◌<◌, ◌≤◌, ℕ, [], true, length, None, map, is_none, unwrap_or, IfOk, OnOk, OnErr};
ghost use Rattle.dpc_lists.specs.Lists.{push, list_any, list_all};
ghost use Rattle.dpc_model.specs.declared.plans.StreamRef.TheVariants.{Source};
ghost use Rattle.script_rules.specs.Statements.{FragmentLine, PatienceLine};
ghost use Rattle.script_rules.specs.Drafts as spec;
ghost use Rattle.script_rules.specs.Reasons.{first_of_tests, tests_said};
ghost use Rattle.script_draft.specs.Columns.{columns_in, source_columns, outputs_behind, is_among_streams};
ghost use Rattle.script_draft.specs.Names.{names_in};

use crate::draft::Draft;
use crate::draft::columns::port_columns;
use crate::draft::sources::name_of_bytes;
use crate::limits::MOST_FRAGMENTS;
use crate::name_list::NameList;
use dpc_lists::faults::NoMemory;
use dpc_lists::lists::Listed;
use dpc_model::plans::{FragSpec, StreamRef};
use script_rules::reasons::Reason;
use std::alloc::Global;

/// The last fragment gets a delay of its own.
fn set_delay(frags: &mut Vec<FragSpec>, delay: u64)
    ensures { frags.new.items ≡ spec.change_last (spec.with_delay delay) frags.old.items }
{
    let count = frags.len();
    if count > 0 {
        frags[count - 1].delay = Some(delay);
    }
}

impl Draft {
    /// Whether some name is that of no stream.
    fn reads_ahead(&self, streams: NameList<'_>) -> bool
        ensures { result ≡ list_any (λ w. is_none (spec.stream_named self.now w)) (names_in streams.entry) }
    {
        let mut names = streams;
        while let Some(name) = names.next() {
            if self.stream_named(name).is_none() {
                return true;
            }
        }
        false
    }

    /// The streams of these names, and the first source in place of one that is not there.
    fn streams(&self, alloc: Global, names: NameList<'_>) -> Result<Vec<StreamRef>, NoMemory>
        ensures { IfOk result (λ streams. streams.items
            ≡ map (λ w. unwrap_or (spec.stream_named self.now w) (Source 0)) (names_in names.entry)) }
    {
        let mut names = names;
        let mut streams = Vec::new(alloc);
        while let Some(name) = names.next() {
            streams.push(self.stream_named(name).unwrap_or(StreamRef::Source(0)))?;
        }
        Ok(streams)
    }

    /// The least reason against the line of a fragment.
    pub fn fault_of_fragment(&self, name: &[u8], streams: NameList<'_>) -> Option<Reason>
        ensures { (replicas : ℕ) → result ≡ first_of_tests (tests_said self.now (FragmentLine name.now replicas (names_in streams.entry))) }
    {
        if self.is_name_taken(name) || streams.has_twice() {
            Some(Reason::NameTaken)
        } else if self.reads_ahead(streams) {
            Some(Reason::ReadsAhead)
        } else if self.frags.len() >= MOST_FRAGMENTS {
            Some(Reason::PastLimit)
        } else {
            None
        }
    }

    /// The line of a fragment.
    pub fn add_fragment(
        &mut self,
        alloc: Global,
        name: &[u8],
        replicas: u64,
        streams: NameList<'_>,
    ) -> Result<(), NoMemory>
        requires few { replicas ≤ 4 }
        requires faultless { first_of_tests (tests_said self.old (FragmentLine name.now replicas (names_in streams))) ≡ None }
        ensures ok { OnOk result (self.new ≡ spec.and_then self.old (FragmentLine name.now replicas (names_in streams.entry))) }
        ensures err { OnErr result (self.new ≡ self.old) }
    {
        let inputs = self.streams(alloc, streams)?;
        let earlier = self.outputs(alloc)?;
        let ports = port_columns(
            alloc,
            self.sources.as_slice(),
            earlier.as_slice(),
            inputs.as_slice(),
        )?;
        let name = name_of_bytes(alloc, name)?;
        let frag = FragSpec {
            name,
            replicas,
            delay: None,
            inputs: Listed::from_vec(inputs),
            ops: Listed::from_vec(Vec::new(alloc)),
        };
        self.append_fragment(frag, earlier, ports)?;
        Ok(())
    }

    /// A further fragment without an operator, the columns of those before it, and of its ports.
    fn append_fragment(
        &mut self,
        frag: FragSpec,
        earlier: Vec<u64>,
        ports: Vec<u64>,
    ) -> Result<(), NoMemory>
        requires empty { frag.ops ≡ [] }
        requires few { frag.replicas ≤ 4 }
        requires room { length self.old.frags < 16 }
        requires inputs { list_all (is_among_streams (length (source_columns self.old.sources))
            (length self.old.frags)) frag.inputs ≡ true }
        requires earlier { earlier.items ≡ outputs_behind (source_columns self.old.sources) [] self.old.frags }
        requires ports { ports.items ≡ map (columns_in (source_columns self.old.sources) earlier.items) frag.inputs }
        ensures ok { OnOk result (self.new ≡ record self.old { frags = push self.old.frags frag }) }
        ensures err { OnErr result (self.new ≡ self.old) }
    {
        self.frags.push(frag)?;
        self.earlier = earlier;
        self.ports = ports;
        self.outs.clear();
        Ok(())
    }

    /// The line of a fragment's own delay. No reason stands against what it says.
    pub fn add_patience(&mut self, delay: u64)
        ensures after { self.new ≡ spec.and_then self.old (PatienceLine delay) }
        ensures faultless { first_of_tests (tests_said self.old (PatienceLine delay)) ≡ None }
    {
        set_delay(&mut self.frags, delay);
    }
}
