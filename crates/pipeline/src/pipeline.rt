//! Inputs, operators and output of a node, and the processing of buckets.
ghost use Rattle.std.specs.Prelude.{◌≡◌, ◌-◌, List, if◌then◌else◌, IfOk};
ghost use Rattle.dpc_lists.specs.Lists.{is_nil};
ghost use Rattle.dpc_model.specs.Parts.{Inputs, Outputs};
ghost use Rattle.dpc_model.specs.declared.operators.OpSpec.{OpSpec};
ghost use Rattle.sunion.specs.Unions.{complete_upto_in};
ghost use Rattle.law_buckets.specs.Series.{buckets_from};
ghost use Rattle.pipeline.specs.Flowing.{IsEngineOf, StandsForData, CanMill, CanProcess, IsMilled, IsProcessedTo, IsUndone, IsSetAs};

use crate::closing::close;
use crate::milling::{advance, next_buckets};
use crate::running::{give, some_if, told_upto};
use checkpoint_redo::keeper::Keeper;
use dpc_lists::faults::NoMemory;
use dpc_lists::lists::Listed;
use dpc_model::tuples::Tagged;
use fragment_mill::mill::FragMill;
use soutput::batches::Sends;
use soutput::fresh::Fresh;
use soutput::output::SOutput;
use std::alloc::Global;
use std::marker::Model;
use sunion::sunion::SUnion;

mod commit;
mod lending;
mod messages;
mod recovery;

/// The inputs of a node in buckets, its operators, and its output. A call that wants memory spoils it,
/// but where it says that nothing changes: nothing is known of it then, and the node that holds it is
/// spent. Contracts see a `PipelineValue`.
#[derive(Drop)]
pub struct Pipeline {
    inputs: SUnion,
    keeper: Keeper<FragMill>,
    output: SOutput,
    /// Whether the plan passes on how far tentative output goes.
    passing: bool,
}

impl Model for Pipeline {
    ghost use Rattle.std.specs.Coded.{codes};
    ghost use Rattle.dpc_model.specs.FormulaCode.{coded_formula};
    ghost use Rattle.pipeline.specs.Flowing.{PipelineValue};

    ghost Value = { PipelineValue };

    ghost coded = { Prim.hlevel (codes, coded_formula) };

    ghost view = { λ p. record { union = p.inputs; keeper = p.keeper; output = p.output; passing = p.passing } };
}

impl Pipeline {
    /// These parts, put together.
    pub fn new(inputs: SUnion, keeper: Keeper<FragMill>, output: SOutput, passing: bool) -> Pipeline
        ensures { result ≡ record { union = inputs; keeper = keeper; output = output; passing = passing } }
    {
        Pipeline {
            inputs,
            keeper,
            output,
            passing,
        }
    }

    /// The inputs.
    pub fn inputs(&self) -> &SUnion
        ensures { result.now ≡ self.now.union }
    {
        &self.inputs
    }

    /// The output.
    pub fn output(&self) -> &SOutput
        ensures { result.now ≡ self.now.output }
    {
        &self.output
    }

    /// How many buckets may be milled. It takes no memory.
    pub fn ready(&self) -> u64
        ensures { (ops : List OpSpec) → (x : Inputs) → (o : Outputs) → StandsForData ops self.now x o
            → result ≡ (if is_nil x.closed then complete_upto_in self.now.union.width x - x.cursor else 0) }
    {
        if self.inputs.closed() > 0 {
            return 0;
        }
        self.inputs.ready()
    }

    /// Processes `count` ready buckets, and gives what is new of the stable output, with its boundary, and
    /// that the corrections are done where they are.
    pub fn mill(&mut self, alloc: Global, count: u64, done: bool) -> Result<Sends, NoMemory>
        requires { (ops : List OpSpec) × (x : Inputs) × (o : Outputs) × CanMill ops self.old x o count }
        ensures fixed { IfOk result (λ sends. IsSetAs self.old self.new) }
        ensures milled { IfOk result (λ sends. (ops : List OpSpec) → (x : Inputs) → (o : Outputs) → CanMill ops self.old x o count
            → IsMilled ops self.old self.new x o count done sends.items) }
    {
        let stable = advance(alloc, &mut self.inputs, &mut self.keeper, count)?;
        let bound = self.inputs.cursor() * self.inputs.width();
        let new = Fresh {
            stable: Listed::from_vec(stable),
            bound: Some(bound),
            tentative: Listed::from_vec(Vec::new(alloc)),
            passed: None,
            done,
        };
        let sends = give(alloc, &mut self.output, new)?;
        Ok(sends)
    }

    /// Processes every bucket from the frontier to a last one: stably while it is complete and nothing
    /// is closed, else it is closed as it stands. One batch gives what is new.
    pub fn process_upto(&mut self, alloc: Global, last: u64) -> Result<Sends, NoMemory>
        requires { (ops : List OpSpec) × (x : Inputs) × (o : Outputs) × CanProcess ops self.old x o last }
        ensures fixed { IfOk result (λ sends. IsSetAs self.old self.new) }
        ensures processed { IfOk result (λ sends. (ops : List OpSpec) → (x : Inputs) → (o : Outputs) → CanProcess ops self.old x o last
            → IsProcessedTo ops self.old self.new x o last sends.items) }
    {
        let count = last + 1 - (self.inputs.cursor() + self.inputs.closed());
        let ready = count.min(self.ready());
        let stable = advance(alloc, &mut self.inputs, &mut self.keeper, ready)?;
        let bound = self.inputs.cursor() * self.inputs.width();
        let tentative = close(alloc, &mut self.inputs, &mut self.keeper, count - ready)?;
        let upto = (last + 1) * self.inputs.width();
        let new = Fresh {
            stable: Listed::from_vec(stable),
            bound: some_if(ready > 0, bound),
            tentative: Listed::from_vec(tentative),
            passed: told_upto(self.passing, ready < count, upto),
            done: false,
        };
        let sends = give(alloc, &mut self.output, new)?;
        Ok(sends)
    }

    /// Takes the closed buckets and the tentative output back, and says so.
    pub fn undo(&mut self, alloc: Global) -> Result<Sends, NoMemory>
        ensures fixed { IfOk result (λ sends. IsSetAs self.old self.new) }
        ensures undone { IfOk result (λ sends. (ops : List OpSpec) → (x : Inputs) → (o : Outputs) → StandsForData ops self.old x o
            → IsUndone ops self.old self.new x o sends.items) }
    {
        self.inputs.undo();
        self.keeper.restore();
        if !self.output.has_room(0) {
            return Err(NoMemory);
        }
        let sends = self.output.undo(alloc)?;
        Ok(sends)
    }

    /// The engine at the cursor and the next buckets, for work that is done apart.
    pub fn work(
        &self,
        alloc: Global,
        count: u64,
    ) -> Result<(FragMill, Listed<Listed<Tagged>>), NoMemory>
        requires { (ops : List OpSpec) × (x : Inputs) × (o : Outputs) × CanMill ops self.now x o count }
        ensures engine { IfOk result (λ w. (ops : List OpSpec) → (x : Inputs) → (o : Outputs) → CanMill ops self.now x o count
            → IsEngineOf ops self.now.union.width x w.0) }
        ensures buckets { IfOk result (λ w. (ops : List OpSpec) → (x : Inputs) → (o : Outputs) → CanMill ops self.now x o count
            → w.1 ≡ buckets_from self.now.union.width x x.cursor count) }
    {
        let Ok(mill) = self.keeper.stand(alloc) else {
            return Err(NoMemory);
        };
        let buckets = next_buckets(alloc, &self.inputs, count)?;
        Ok((mill, buckets))
    }
}
