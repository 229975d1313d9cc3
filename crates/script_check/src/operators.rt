//! The lines of operators.
ghost use Rattle.std.specs.Prelude.{◌≡◌, ◌≤◌, ◌==◌, ℕ, [], map, is_none};
ghost use Rattle.dpc_lists.specs.Lists.{nth, list_any, list_all};
ghost use Rattle.dpc_model.specs.ScriptText.{wire_word};
ghost use Rattle.dpc_model.specs.Columns.{kind_columns, columns_by};
ghost use Rattle.script_rules.specs.Reasons as reason;
ghost use Rattle.script_rules.specs.Drafts.{Draft};
ghost use Rattle.script_rules.specs.Checking.{operator_statement};
ghost use Rattle.script_check.specs.Judging.{told};
ghost use Rattle.script_check.specs.Locals as local;
ghost use Rattle.script_check.specs.Behind.{IsInside, JudgesFragment};

use crate::kinds::{
    aggregate_reads_below, exprs_read_below, has_many_columns, is_too_large, keys_read_below,
    reads_below,
};
use crate::names::{is_taken, name_of_stream, name_of_wire, place_of_stream, stream_of};
use arrayvec::ArrayVec;
use dpc_model::operators::{OpKind, OpSpec, Wire};
use dpc_model::plans::{FragSpec, Plan, StreamRef};
use script_draft::ends::{last_number, number_at};
use script_draft::limits::{MOST_COLUMNS, MOST_OPERATORS};
use script_draft::named::{has_name, place_of};
use script_rules::reasons::{PlanFault, Reason};

/// A fragment with those before it in the plan, and the columns of these.
#[derive(Clone, Copy)]
pub struct Place<'a> {
    pub plan: &'a Plan,
    pub before: &'a [FragSpec],
    pub columns: &'a [u64],
    pub frag: &'a FragSpec,
}

/// The columns of a stream, where those of the fragments before are these.
fn stream_columns(plan: &Plan, frags: &[u64], stream: StreamRef) -> u64
    ensures { result ≡ columns_by plan.now frags.now stream }
{
    match stream {
        StreamRef::Source(s) => match plan.sources.as_slice().get(s as usize) {
            Some(source) => source.columns,
            None => 0,
        },
        StreamRef::Frag(f) => number_at(frags, f),
    }
}

impl<'a> Place<'a> {
    /// What a name stands for behind the first operators of the fragment: a port, or one of these operators.
    fn wire_of(self, done: &[OpSpec], name: &[u8]) -> Option<Wire>
        ensures { result ≡ local.wire_of self.entry.plan.now self.entry.frag.now done.now name.now }
    {
        match place_of_stream(name, self.plan, self.frag.inputs.as_slice()) {
            Some(port) => Some(Wire::Port(port)),
            None => match place_of(name, done) {
                Some(op) => Some(Wire::Op(op)),
                None => None,
            },
        }
    }

    /// The stream that a port's name stands for.
    fn found_stream(self, stream: StreamRef) -> StreamRef
        ensures { result ≡ local.found_stream self.entry.plan.now self.entry.before.now stream }
    {
        let name = name_of_stream(self.plan, stream);
        stream_of(name, self.plan.sources.as_slice(), self.before).unwrap_or(StreamRef::Source(0))
    }

    /// The columns of a port, and 0 where there is none of that number.
    fn port_columns(self, port: u64) -> u64
        ensures { result
            ≡ nth 0 (local.port_columns self.entry.plan.now self.entry.before.now self.entry.columns.now self.entry.frag.now) port }
    {
        match self.frag.inputs.as_slice().get(port as usize) {
            Some(stream) => stream_columns(self.plan, self.columns, self.found_stream(*stream)),
            None => 0,
        }
    }

    /// The columns of what a name stands for, and 0 where it stands for nothing.
    fn name_columns(self, done: &[OpSpec], outs: &[u64], name: &[u8]) -> u64
        ensures { result ≡ local.name_columns self.entry.plan.now self.entry.frag.now done.now
            (local.port_columns self.entry.plan.now self.entry.before.now self.entry.columns.now self.entry.frag.now) outs.now name.now }
    {
        match self.wire_of(done, name) {
            Some(Wire::Port(port)) => self.port_columns(port),
            Some(Wire::Op(op)) => number_at(outs, op),
            None => 0,
        }
    }

    /// The columns of what is read at a place, and 0 past the end.
    fn read_columns(self, done: &[OpSpec], outs: &[u64], reads: &[Wire], place: usize) -> u64
        ensures { result ≡ nth 0 (local.read_columns self.entry.plan.now self.entry.frag.now done.now
            (local.port_columns self.entry.plan.now self.entry.before.now self.entry.columns.now self.entry.frag.now)
            outs.now reads.now) place }
    {
        match reads.get(place) {
            Some(wire) => self.name_columns(done, outs, name_of_wire(self.plan, self.frag, *wire)),
            None => 0,
        }
    }

    /// Whether all that is read has so many columns.
    fn all_have(self, done: &[OpSpec], outs: &[u64], reads: &[Wire], columns: u64) -> bool
        ensures { result ≡ list_all (λ n. n == columns) (local.read_columns self.entry.plan.now self.entry.frag.now done.now
            (local.port_columns self.entry.plan.now self.entry.before.now self.entry.columns.now self.entry.frag.now) outs.now reads.now) }
    {
        for wire in reads {
            let name = name_of_wire(self.plan, self.frag, *wire);
            if self.name_columns(done, outs, name) != columns {
                return false;
            }
        }
        true
    }

    /// Whether something that is read is not there, behind the first operators of the fragment.
    fn reads_unknown(self, done: &[OpSpec], reads: &[Wire]) -> bool
        ensures { result ≡ list_any (λ r. is_none (local.wire_of self.entry.plan.now self.entry.frag.now done.now
            (wire_word self.entry.plan.now self.entry.frag.now r))) reads.now }
    {
        for wire in reads {
            let name = name_of_wire(self.plan, self.frag, *wire);
            let None = self.wire_of(done, name) else {
                continue;
            };
            return true;
        }
        false
    }

    /// Whether an operator reads a column that is not there, its inputs don't agree, or its result has too many columns.
    fn misses_column(self, done: &[OpSpec], outs: &[u64], op: &OpSpec) -> bool
        ensures { result ≡ local.misses_column op.now.kind (local.read_columns self.entry.plan.now self.entry.frag.now done.now
            (local.port_columns self.entry.plan.now self.entry.before.now self.entry.columns.now self.entry.frag.now)
            outs.now op.now.reads) }
    {
        let reads = op.reads.as_slice();
        let first = self.read_columns(done, outs, reads, 0);
        match &op.kind {
            OpKind::Filter(test) => !reads_below(first, test) || first > MOST_COLUMNS,
            OpKind::Map(exprs) => {
                !exprs_read_below(first, exprs.as_slice()) || exprs.len() as u64 > MOST_COLUMNS
            }
            OpKind::Union => !self.all_have(done, outs, reads, first) || first > MOST_COLUMNS,
            OpKind::Join(_, keys) => {
                let second = self.read_columns(done, outs, reads, 1);
                !keys_read_below(first, second, keys.as_slice())
                    || first.saturating_add(second) > MOST_COLUMNS
            }
            OpKind::Aggregate(_, _, group, aggs) => {
                !aggregate_reads_below(first, *group, aggs.as_slice())
                    || has_many_columns(*group, aggs.len() as u64)
            }
        }
    }

    /// Whether a name is taken behind the first operators of the fragment.
    fn is_taken(self, done: &[OpSpec], name: &[u8]) -> bool
        ensures { result ≡ local.takes_name self.entry.plan.now self.entry.before.now self.entry.frag.now done.now name.now }
    {
        is_taken(name, self.plan.sources.as_slice(), self.before)
            || name == self.frag.name.as_slice()
            || has_name(name, done)
    }

    /// The least reason against an operator behind the first ones of the fragment.
    fn fault_of_operator(self, done: &[OpSpec], outs: &[u64], op: &OpSpec) -> Option<Reason>
        ensures { result ≡ reason.first_of_tests (local.against_operator
            self.entry.plan.now self.entry.before.now self.entry.frag.now done.now
            (local.port_columns self.entry.plan.now self.entry.before.now self.entry.columns.now self.entry.frag.now) outs.now op.now) }
    {
        if self.is_taken(done, op.name.as_slice()) {
            Some(Reason::NameTaken)
        } else if self.reads_unknown(done, op.reads.as_slice()) {
            Some(Reason::Unknown)
        } else if self.misses_column(done, outs, op) {
            Some(Reason::NoSuchColumn)
        } else if done.len() >= MOST_OPERATORS || is_too_large(&op.kind) {
            Some(Reason::PastLimit)
        } else {
            None
        }
    }

    /// The columns of an operator's result, which are few.
    fn columns_of_operator(self, done: &[OpSpec], outs: &[u64], op: &OpSpec) -> u64
        requires { kind_columns op.now.kind (local.read_columns self.plan.now self.frag.now done.now
            (local.port_columns self.plan.now self.before.now self.columns.now self.frag.now) outs.now op.now.reads) ≤ 8 }
        ensures { result ≡ kind_columns op.now.kind (local.read_columns self.entry.plan.now self.entry.frag.now done.now
            (local.port_columns self.entry.plan.now self.entry.before.now self.entry.columns.now self.entry.frag.now)
            outs.now op.now.reads) }
    {
        let reads = op.reads.as_slice();
        let first = self.read_columns(done, outs, reads, 0);
        match &op.kind {
            OpKind::Filter(_) | OpKind::Union => first,
            OpKind::Map(exprs) => exprs.len() as u64,
            OpKind::Join(_, _) => first + self.read_columns(done, outs, reads, 1),
            OpKind::Aggregate(_, _, None, aggs) => aggs.len() as u64,
            OpKind::Aggregate(_, _, Some(_), aggs) => aggs.len() as u64 + 1,
        }
    }

    /// The line behind the operators of the fragment, and its columns; or the first fault.
    pub fn check_operators(self, line: u64) -> Result<(u64, u64), PlanFault>
        ensures { (n : ℕ) → (d : Draft) → line ≡ told n
            → IsInside self.entry.plan.now self.entry.before.now self.entry.columns.now self.entry.frag.now [] [] d
            → JudgesFragment result n self.entry.plan.now self.entry.before.now self.entry.columns.now self.entry.frag.now d
            (map (operator_statement self.entry.plan.now self.entry.frag.now) self.entry.frag.now.ops) }
    {
        let ops = self.frag.ops.as_slice();
        let mut outs: ArrayVec<u64, MOST_OPERATORS> = ArrayVec::new();
        let mut next = line;
        for (i, op) in ops.iter().enumerate() {
            let done = &ops[..i];
            if let Some(reason) = self.fault_of_operator(done, outs.as_slice(), op) {
                return Err(PlanFault { line: next, reason });
            }
            let columns = self.columns_of_operator(done, outs.as_slice(), op);
            outs.push(columns);
            next = next.saturating_add(1);
        }
        Ok((next, last_number(outs.as_slice())))
    }
}
