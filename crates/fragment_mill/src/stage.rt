//! A stage of a mill: an operator with what it reads.
ghost use Rattle.std.specs.Prelude.{◌≡◌, ◌+◌, ◌^◌, ◌<◌, ◌++◌, ◌↔◌, ℕ, true, false, List, [], map, unwrap_or, All, IfOk, OnOk, OnErr, IsTrue};
ghost use Rattle.dpc_lists.specs.Lists.{push};
ghost use Rattle.dpc_model.specs.Engines.{Accepts, LiesIn, is_serial};
ghost use Rattle.dpc_model.specs.Fragments.{serial, tag, read_wire, at_port, IsSoundKind};
ghost use Rattle.dpc_model.specs.declared.tuples.Tagged.{Tagged};
ghost use Rattle.fragment_mill.specs.Mills.{OperatorAfter, operators_of, next_of, width_of, spent_of, inputs_of, spec_of, new_stage};
ghost use Rattle.fragment_mill.specs.Milling.{IsFit, AreOfBucket, added_of};
ghost use Rattle.fragment_mill.specs.Reads.{AreStraight, AreAmong};
ghost use Rattle.ops_join.specs.RowsOut.{Takes, TakesFirst};

use crate::mill::Stage;
use crate::operator::Operator;
use dpc_lists::exact::Exact;
use dpc_lists::faults::NoMemory;
use dpc_model::engines::Engine;
use dpc_model::faults::StepFault;
use dpc_model::operators::{OpSpec, Wire};
use dpc_model::tuples::{Tagged, Tuple, Tuples};
use ops_join::rows_out::{Ended, RowSink};
use std::alloc::{AllocError, Global};

/// Appends the tuples, tagged with a port.
fn append_tuples(
    alloc: Global,
    gathered: &mut Vec<Tagged>,
    port: u64,
    tuples: &[Tuple],
) -> Result<(), AllocError>
    ensures { OnOk result (gathered.new.items ≡ gathered.old.items ++ map (tag port) tuples.now) }
{
    for tuple in tuples {
        let tuple = tuple.copy(alloc)?;
        gathered.push(Tagged { port, tuple })?;
    }
    Ok(())
}

/// Appends the tuples that came by port `from`, tagged with another port.
fn append_port(
    alloc: Global,
    gathered: &mut Vec<Tagged>,
    port: u64,
    inputs: &[Tagged],
    from: u64,
) -> Result<(), AllocError>
    ensures { OnOk result (gathered.new.items ≡ gathered.old.items ++ map (tag port) (at_port from inputs.now)) }
{
    for input in inputs {
        if input.port == from {
            let tuple = input.tuple.copy(alloc)?;
            gathered.push(Tagged { port, tuple })?;
        }
    }
    Ok(())
}

/// Appends what a wire reads of the inputs and of the outputs of the operators before, tagged with a port.
fn append_wire(
    alloc: Global,
    gathered: &mut Vec<Tagged>,
    port: u64,
    inputs: &[Tagged],
    outputs: &[Tuples],
    wire: Wire,
) -> Result<(), AllocError>
    ensures { OnOk result (gathered.new.items ≡ gathered.old.items ++ map (tag port) (read_wire inputs.now outputs.now wire)) }
{
    match wire {
        Wire::Port(from) => append_port(alloc, gathered, port, inputs, from),
        Wire::Op(operator) => match outputs.get(operator as usize) {
            Some(output) => append_tuples(alloc, gathered, port, output.as_slice()),
            None => Ok(()),
        },
    }
}

/// What the wires read, each tagged with its number, in order of time, wire and place.
fn gather(
    alloc: Global,
    reads: &[Wire],
    inputs: &[Tagged],
    outputs: &[Tuples],
) -> Result<Vec<Tagged>, AllocError>
    ensures { IfOk result (λ xs. xs.items ≡ serial (map (read_wire inputs.now outputs.now) reads.now)) }
{
    let mut gathered = Vec::with_capacity(alloc, inputs.len())?;
    for (port, wire) in reads.iter().enumerate() {
        append_wire(alloc, &mut gathered, port as u64, inputs, outputs, *wire)?;
    }
    gathered.sort_by_key(|input| input.tuple.stime)?;
    Ok(gathered)
}

/// Whether each wire reads the port of its number.
fn are_straight(reads: &[Wire]) -> bool
    ensures { IsTrue result → AreStraight reads.now }
{
    for (port, wire) in reads.iter().enumerate() {
        let Wire::Port(number) = wire else {
            return false;
        };
        if *number != port as u64 {
            return false;
        }
    }
    true
}

/// Whether the inputs came by the first ports, so many.
fn are_among(inputs: &[Tagged], count: u64) -> bool
    ensures { IsTrue result ↔ AreAmong count inputs.now }
{
    inputs.iter().all(|x| x.port < count)
}

/// An operator takes what its wires read of bucket k, and its output is appended.
fn take(
    operator: &mut Operator,
    alloc: Global,
    read: &[Tagged],
    outputs: &mut Vec<Tuples>,
    k: u64,
) -> Result<(), NoMemory>
    requires next { k ≡ next_of operator.old }
    requires range { k + 1 < 2 ^ 64 }
    requires accepts { Accepts (width_of operator.old) k read.now }
    ensures added { OnOk result ((before : List Tagged) → OperatorAfter operator.old before k
        → outputs.new.items ≡ push outputs.old.items (added_of operator.old before read.now k)) }
    ensures after { OnOk result ((before : List Tagged) → OperatorAfter operator.old before k
        → OperatorAfter operator.new (before ++ read.now) (k + 1)) }
    ensures lies { OnOk result ((w : ℕ) → unwrap_or (width_of operator.old) w ≡ w → All (LiesIn w k) read.now
        → AreOfBucket w k outputs.old.items → AreOfBucket w k outputs.new.items) }
    ensures idle { OnOk result (spent_of operator.new ≡ false) }
    ensures next { OnOk result (next_of operator.new ≡ k + 1) }
    ensures operators { operators_of operator.new ≡ operators_of operator.old }
    ensures width { width_of operator.new ≡ width_of operator.old }
{
    match operator.bucket(alloc, read, k) {
        Ok(output) => Ok(outputs.push(output)?),
        Err(_) => Err(NoMemory),
    }
}

impl Stage {
    /// An operator of a plan over buckets of this width, before bucket 0.
    pub(crate) fn new(alloc: Global, op: &OpSpec, width: u64) -> Result<Stage, NoMemory>
        requires { IsSoundKind op.now.kind }
        ensures { IfOk result (λ s. s ≡ new_stage width op.now) }
    {
        let reads = op.reads.copy(alloc)?;
        let operator = Operator::new(alloc, &op.kind, op.reads.len() as u64, width)?;
        Ok(Stage { reads, operator })
    }

    /// Takes what it reads of bucket k, which is its operator's next one, where the operators before
    /// it gave these outputs in this bucket. Appends the output that this adds.
    pub(crate) fn bucket(
        &mut self,
        alloc: Global,
        inputs: &[Tagged],
        outputs: &mut Vec<Tuples>,
        k: u64,
    ) -> Result<(), NoMemory>
        requires next { k ≡ next_of self.old.operator }
        requires range { k + 1 < 2 ^ 64 }
        requires serial { is_serial inputs.now ≡ true }
        requires accepts { Accepts (width_of self.old.operator) k (inputs_of inputs.now outputs.old.items self.old.reads) }
        ensures added { OnOk result ((before : List Tagged) → OperatorAfter self.old.operator before k
            → outputs.new.items ≡ push outputs.old.items
            (added_of self.old.operator before (inputs_of inputs.now outputs.old.items self.old.reads) k)) }
        ensures after { OnOk result ((before : List Tagged) → OperatorAfter self.old.operator before k
            → OperatorAfter self.new.operator (before ++ inputs_of inputs.now outputs.old.items self.old.reads) (k + 1)) }
        ensures lies { OnOk result ((w : ℕ) → unwrap_or (width_of self.old.operator) w ≡ w
            → All (LiesIn w k) (inputs_of inputs.now outputs.old.items self.old.reads)
            → AreOfBucket w k outputs.old.items → AreOfBucket w k outputs.new.items) }
        ensures idle { OnOk result (spent_of self.new.operator ≡ false) }
        ensures next { OnOk result (next_of self.new.operator ≡ k + 1) }
        ensures spec { spec_of self.new ≡ spec_of self.old }
        ensures fits { (width : ℕ) → IsFit width self.old → IsFit width self.new }
    {
        let reads = self.reads.as_slice();
        // read as they stand
        if are_straight(reads) && are_among(inputs, reads.len() as u64) {
            return take(&mut self.operator, alloc, inputs, outputs, k);
        }
        let gathered = gather(alloc, reads, inputs, outputs.as_slice())?;
        take(&mut self.operator, alloc, gathered.as_slice(), outputs, k)
    }

    /// Takes what it reads of bucket k, as `bucket` does, and gives the rows that this adds one behind another.
    pub(crate) fn bucket_into<K, R: RowSink<K>>(
        &mut self,
        alloc: Global,
        inputs: &[Tagged],
        outputs: &[Tuples],
        k: u64,
        sink: &mut R,
        out: &mut K,
    ) -> Result<(), Ended>
        requires next { k ≡ next_of self.old.operator }
        requires range { k + 1 < 2 ^ 64 }
        requires serial { is_serial inputs.now ≡ true }
        requires accepts { Accepts (width_of self.old.operator) k (inputs_of inputs.now outputs.now self.old.reads) }
        ensures rows { OnOk result ((before : List Tagged) → OperatorAfter self.old.operator before k
            → Takes (R.took sink.old out.old) (R.took sink.new out.new)
            (added_of self.old.operator before (inputs_of inputs.now outputs.now self.old.reads) k)) }
        ensures first { OnErr result ((before : List Tagged) → OperatorAfter self.old.operator before k
            → TakesFirst (R.took sink.old out.old) (R.took sink.new out.new)
            (added_of self.old.operator before (inputs_of inputs.now outputs.now self.old.reads) k)) }
        ensures after { OnOk result ((before : List Tagged) → OperatorAfter self.old.operator before k
            → OperatorAfter self.new.operator (before ++ inputs_of inputs.now outputs.now self.old.reads) (k + 1)) }
        ensures idle { OnOk result (spent_of self.new.operator ≡ false) }
        ensures next { OnOk result (next_of self.new.operator ≡ k + 1) }
        ensures spec { spec_of self.new ≡ spec_of self.old }
        ensures fits { (width : ℕ) → IsFit width self.old → IsFit width self.new }
    {
        let reads = self.reads.as_slice();
        if are_straight(reads) && are_among(inputs, reads.len() as u64) {
            return self.operator.bucket_into(alloc, inputs, k, sink, out);
        }
        let gathered = gather(alloc, reads, inputs, outputs)?;
        self.operator
            .bucket_into(alloc, gathered.as_slice(), k, sink, out)
    }

    /// Its operator's state before bucket 0.
    pub(crate) fn reset(&mut self)
        ensures after { OperatorAfter self.new.operator [] 0 }
        ensures idle { spent_of self.new.operator ≡ false }
        ensures spec { spec_of self.new ≡ spec_of self.old }
        ensures fits { (width : ℕ) → IsFit width self.old → IsFit width self.new }
    {
        self.operator.reset();
    }

    /// The same stage in the same state.
    pub(crate) fn copy(&self, alloc: Global) -> Result<Stage, StepFault>
        ensures { IfOk result (λ other. other ≡ self.now) }
    {
        let reads = self.reads.copy(alloc)?;
        let operator = self.operator.copy(alloc)?;
        Ok(Stage { reads, operator })
    }

    /// Whether the two are the same stage in the same state.
    pub(crate) fn same(&self, other: &Stage) -> bool
        ensures { IsTrue result ↔ (self.now ≡ other.now) }
    {
        self.reads.same(&other.reads) && self.operator.same(&other.operator)
    }
}
