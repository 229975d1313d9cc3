//! The mill of a fragment.
ghost use Rattle.std.specs.Prelude.{◌≡◌, ◌+◌, ◌*◌, ◌^◌, ◌<◌, ◌↔◌, ◌++◌, ℕ, List, [], map, length, slice_get, unwrap_or, true, false, Some, None, IfOk, OnOk, OnErr, IsTrue, All};
ghost use Rattle.dpc_lists.specs.Lists.{last_or};
ghost use Rattle.dpc_model.specs.Engines.{nameless, FitsBucket};
ghost use Rattle.dpc_model.specs.Fragments.{AreSoundFrags, AreSoundOps};
ghost use Rattle.dpc_model.specs.declared.plans.FragSpec.{FragSpec};
ghost use Rattle.dpc_model.specs.declared.plans.Plan.{Plan};
ghost use Rattle.dpc_model.specs.declared.tuples.Tagged.{Tagged};
ghost use Rattle.fragment_mill.specs.Mills.{OperatorAfter, MillAfter, spent_of, specs_of, new_mill, new_stage, mill_added};
ghost use Rattle.fragment_mill.specs.Milling.{IsFit, IsReady};
ghost use Rattle.fragment_mill.specs.States.{parts_of, mill_of, ops_at, state_fault, IsOf, ComesBack};
ghost use Rattle.fragment_mill.specs.Views.{shown};
ghost use Rattle.ops_join.specs.RowsOut.{Takes, TakesFirst};

use crate::operator::Operator;
use crate::states::{MillParts, PartsFault, all_parts, resumed_stages};
use crate::views::KeptView;
use dpc_lists::exact::Exact;
use dpc_lists::faults::NoMemory;
use dpc_lists::lists::Listed;
use dpc_model::engines::Engine;
use dpc_model::faults::StepFault;
use dpc_model::operators::{OpSpec, Wire};
use dpc_model::plans::Plan;
use dpc_model::tuples::{Tagged, Tuples};
use ops_join::rows_out::{Ended, RowSink};
use std::alloc::Global;
use std::marker::Model;

/// An operator, and what it reads.
#[derive(Drop)]
pub struct Stage {
    pub reads: Listed<Wire>,
    pub operator: Operator,
}

/// The operators of a fragment in order, of which each reads ports and operators before it; the last
/// one's output is the fragment's. Contracts see a `MillState`.
#[derive(Drop)]
pub struct FragMill {
    width: u64,
    stages: Vec<Stage>,
    next: u64,
    spent: bool,
}

impl Model for FragMill {
    ghost use Rattle.std.specs.Coded.{codes};
    ghost use Rattle.dpc_model.specs.FormulaCode.{coded_formula};
    ghost use Rattle.fragment_mill.specs.Mills.{MillState};
    ghost use Rattle.fragment_mill.specs.Milling.{IsReady};

    ghost Value = { MillState };

    ghost coded = { Prim.hlevel (codes, coded_formula) };

    ghost view = { λ m. record { width = m.width; stages = m.stages.items; next = m.next; spent = m.spent } };

    ghost invariant = { λ m. IsReady (record { width = m.width; stages = m.stages.items; next = m.next; spent = m.spent }) };
}

/// The operators of a fragment as stages, before bucket 0.
fn new_stages(alloc: Global, ops: &[OpSpec], width: u64) -> Result<Vec<Stage>, NoMemory>
    requires { AreSoundOps ops.now }
    ensures { IfOk result (λ stages. stages.items ≡ map (new_stage width) ops.now) }
{
    let mut stages = Vec::with_capacity(alloc, ops.len())?;
    for op in ops {
        stages.push(Stage::new(alloc, op, width)?)?;
    }
    Ok(stages)
}

/// The same stages in the same states.
fn copied(alloc: Global, stages: &[Stage]) -> Result<Vec<Stage>, StepFault>
    ensures { IfOk result (λ others. others.items ≡ stages.now) }
{
    let mut copies = Vec::with_capacity(alloc, stages.len())?;
    for stage in stages {
        copies.push(stage.copy(alloc)?)?;
    }
    Ok(copies)
}

/// Whether the two have the same stages in the same states.
fn are_same(stages: &[Stage], others: &[Stage]) -> bool
    ensures { IsTrue result ↔ (stages.now ≡ others.now) }
{
    if stages.len() != others.len() {
        return false;
    }
    for (i, stage) in stages.iter().enumerate() {
        if !stage.same(&others[i]) {
            return false;
        }
    }
    true
}

/// Brings each stage to its state before bucket 0.
fn reset_all(stages: &mut [Stage])
    ensures specs { specs_of stages.new ≡ specs_of stages.old }
    ensures fits { (width : ℕ) → All (IsFit width) stages.old → All (IsFit width) stages.new }
    ensures after { All (λ s. OperatorAfter s.operator [] 0) stages.new }
    ensures idle { All (λ s. spent_of s.operator ≡ false) stages.new }
{
    for stage in stages.iter_mut() {
        stage.reset();
    }
}

/// The last output, and no tuple where there is none.
fn last_output(alloc: Global, mut outputs: Vec<Tuples>) -> Tuples
    ensures { result ≡ unwrap_or (last_or None outputs.items) [] }
{
    match outputs.pop() {
        Some(output) => output,
        None => Listed::from_vec(Vec::new(alloc)),
    }
}

impl FragMill {
    /// The operators of fragment `frag` of a plan, before bucket 0.
    pub fn new(alloc: Global, plan: &Plan, frag: u64) -> Result<FragMill, NoMemory>
        requires known { frag < length plan.now.frags }
        requires sound { AreSoundFrags plan.now.frags }
        ensures made { IfOk result (λ m. (f : FragSpec) → slice_get plan.now.frags frag ≡ Some f → m ≡ new_mill plan.now.width f.ops) }
        ensures operators { IfOk result (λ m. (f : FragSpec) → slice_get plan.now.frags frag ≡ Some f
            → specs_of m.stages ≡ nameless f.ops) }
        ensures width { IfOk result (λ m. m.width ≡ plan.now.width) }
        ensures fresh { IfOk result (λ m. m.spent ≡ false) }
        ensures after { IfOk result (λ m. MillAfter m [] 0) }
    {
        let spec = &plan.frags.as_slice()[frag as usize];
        let stages = new_stages(alloc, spec.ops.as_slice(), plan.width)?;
        Ok(FragMill {
            width: plan.width,
            stages,
            next: 0,
            spent: false,
        })
    }

    /// The engine of fragment `frag` of a plan with this state. `BadShape(i)` says that operator `i` is the
    /// first that can't have kept what it is given before bucket `parts.next` (`state_fault`): data of
    /// another kind; tuples of a join, or cells of an aggregate, that are out of order, at or past the
    /// bucket's begin, or of no use any more; a cell with a group where the plan has no group column, or
    /// with another number of totals than the plan has aggregates. Where there are more operators than
    /// parts, or fewer, it is the lesser count. `parts.next` may be any number: where `parts.next *
    /// plan.width` passes 2^64 no bucket can follow, and what is kept is tested against that begin all the
    /// same. Not tested is how many values the tuples of a join have, since a join is defined for any
    /// number, nor what the values and the totals are. The tuples are moved, the cells copied; the time is
    /// about as that of a walk over the tuples, and of putting the cells into ordered maps.
    pub fn from_parts(
        alloc: Global,
        plan: &Plan,
        frag: u64,
        parts: MillParts,
    ) -> Result<FragMill, PartsFault>
        requires known { frag < length plan.now.frags }
        requires sound { AreSoundFrags plan.now.frags }
        ensures made { IfOk result (λ m. m ≡ mill_of plan.now.width (ops_at plan.now frag) parts) }
        ensures whole { OnOk result (state_fault plan.now frag parts ≡ None) }
        ensures fault { (i : ℕ) → result ≡ Err (PartsFault.BadShape i) → state_fault plan.now frag parts ≡ Some i }
        ensures operators { IfOk result (λ m. specs_of m.stages ≡ nameless (ops_at plan.now frag)) }
    {
        let spec = &plan.frags.as_slice()[frag as usize];
        let MillParts { next, operators } = parts;
        match resumed_stages(alloc, spec.ops.as_slice(), plan.width, next, operators) {
            Ok(stages) => Ok(FragMill {
                width: plan.width,
                stages,
                next,
                spent: false,
            }),
            Err(fault) => Err(fault),
        }
    }

    /// What it keeps, copied. The mill of a plan's fragment comes back of it, by `from_parts` for that plan
    /// and fragment, whatever state it was made with before.
    pub fn parts(&self, alloc: Global) -> Result<MillParts, StepFault>
        ensures parts { IfOk result (λ parts. parts ≡ parts_of self.now) }
        ensures spent { result ≡ Err StepFault.Spent ↔ self.now.spent ≡ true }
        ensures back { IfOk result (λ parts. (plan : Plan) (frag : ℕ) → IsOf plan frag self.now → ComesBack plan frag self.now parts) }
    {
        if self.spent {
            return Err(StepFault::Spent);
        }
        let Ok(operators) = all_parts(alloc, self.stages.as_slice()) else {
            return Err(StepFault::NoMemory);
        };
        Ok(MillParts {
            next: self.next,
            operators,
        })
    }

    /// The next bucket.
    pub fn next_bucket(&self) -> u64
        ensures { result ≡ self.now.next }
    {
        self.next
    }

    /// How wide its buckets are; and contracts learn here what is so of every mill.
    pub fn width(&self) -> u64
        ensures width { result ≡ self.now.width }
        ensures ready { IsReady self.now }
    {
        self.width
    }

    /// How many operators there are.
    pub fn operator_count(&self) -> usize
        ensures { result ≡ length (parts_of self.now).operators }
    {
        self.stages.len()
    }

    /// What operator `number` keeps, lent: what `parts` has of it, without a copy.
    pub fn kept(&self, number: usize) -> KeptView<'_>
        requires { number < length (parts_of self.now).operators }
        ensures { slice_get (parts_of self.now).operators number ≡ Some (shown result) }
    {
        self.stages[number].operator.kept()
    }

    /// Takes the inputs of the next bucket, as `bucket` does, and gives the rows that they add one behind
    /// another. Where the last operator is a join, none of them is held.
    pub fn bucket_into<K, R: RowSink<K>>(
        &mut self,
        alloc: Global,
        inputs: &[Tagged],
        k: u64,
        sink: &mut R,
        out: &mut K,
    ) -> Result<(), Ended>
        requires next { k ≡ self.old.next }
        requires range { k + 1 < 2 ^ 64 }
        requires accepts { FitsBucket self.old.width k inputs.now }
        ensures rows { OnOk result ((before : List Tagged) → MillAfter self.old before k
            → Takes (R.took sink.old out.old) (R.took sink.new out.new) (mill_added self.old before inputs.now k)) }
        ensures first { OnErr result ((before : List Tagged) → MillAfter self.old before k
            → TakesFirst (R.took sink.old out.old) (R.took sink.new out.new) (mill_added self.old before inputs.now k)) }
        ensures after { OnOk result ((before : List Tagged) → MillAfter self.old before k
            → MillAfter self.new (before ++ inputs.now) (k + 1)) }
        ensures idle { OnOk result (self.new.spent ≡ false) }
        ensures spent { OnErr result (self.new.spent ≡ true) }
        ensures operators { specs_of self.new.stages ≡ specs_of self.old.stages }
        ensures width { self.new.width ≡ self.old.width }
    {
        if self.spent {
            return Err(Ended);
        }
        let Some(last) = self.stages.len().checked_sub(1) else {
            self.next = k + 1;
            return Ok(());
        };
        self.spent = true;
        let mut outputs = Vec::new(alloc);
        for i in 0..last {
            let Ok(()) = self.stages[i].bucket(alloc, inputs, &mut outputs, k) else {
                return Err(Ended);
            };
        }
        self.stages[last].bucket_into(alloc, inputs, outputs.as_slice(), k, sink, out)?;
        self.next = k + 1;
        self.spent = false;
        Ok(())
    }
}

impl Engine for FragMill {
    ghost width = { λ m. Some m.width };

    ghost operators = { λ m. specs_of m.stages };

    ghost next = { λ m. m.next };

    ghost is_spent = { λ m. m.spent };

    ghost after = { λ m xs k. MillAfter m xs k };

    /// Each stage in turn takes the bucket. Until all are done the mill counts as spent.
    fn bucket(&mut self, alloc: Global, inputs: &[Tagged], k: u64) -> Result<Tuples, StepFault> {
        if self.spent {
            return Err(StepFault::Spent);
        }
        self.spent = true;
        let mut outputs = Vec::new(alloc);
        for i in 0..self.stages.len() {
            let Ok(()) = self.stages[i].bucket(alloc, inputs, &mut outputs, k) else {
                return Err(StepFault::NoMemory);
            };
        }
        self.next = k + 1;
        self.spent = false;
        Ok(last_output(alloc, outputs))
    }

    fn copy(&self, alloc: Global) -> Result<Self, StepFault> {
        if self.spent {
            return Err(StepFault::Spent);
        }
        match copied(alloc, self.stages.as_slice()) {
            Ok(stages) => Ok(FragMill {
                width: self.width,
                stages,
                next: self.next,
                spent: false,
            }),
            Err(_) => Err(StepFault::NoMemory),
        }
    }

    fn same(&self, other: &Self) -> bool {
        self.width == other.width
            && are_same(self.stages.as_slice(), other.stages.as_slice())
            && self.next == other.next
            && self.spent == other.spent
    }

    fn reset(&mut self) {
        reset_all(self.stages.as_mut_slice());
        self.next = 0;
        self.spent = false;
    }
}
