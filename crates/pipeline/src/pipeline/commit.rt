//! Work that was done apart, and is put back.
ghost use Rattle.std.specs.Prelude.{◌≡◌, ◌↔◌, List, IfOk, IsTrue};
ghost use Rattle.dpc_model.specs.Parts.{Inputs, Outputs};
ghost use Rattle.dpc_model.specs.declared.operators.OpSpec.{OpSpec};
ghost use Rattle.pipeline.specs.Flowing.{StandsForData, IsEngineOf, IsMilled, IsSetAs};
ghost use Rattle.pipeline.specs.Committing.{CanMillReady, IsAt, CanPut};

use crate::milling::next_buckets;
use crate::pipeline::Pipeline;
use crate::running::give;
use dpc_lists::exact::Exact;
use dpc_lists::faults::NoMemory;
use dpc_lists::lists::Listed;
use dpc_model::tuples::Tuples;
use fragment_mill::mill::FragMill;
use mill_work::order::Order;
use soutput::batches::Sends;
use soutput::fresh::Fresh;
use std::alloc::Global;

impl Pipeline {
    /// Whether an order's engine is the one at the cursor. It wants memory where the engine is lent.
    fn has_engine(&self, order: &Order<FragMill>) -> Result<bool, NoMemory>
        ensures { IfOk result (λ told. (ops : List OpSpec) → (x : Inputs) → (o : Outputs) → StandsForData ops self.now x o
            → (IsTrue told ↔ IsEngineOf ops self.now.union.width x order.now.before)) }
    {
        let told = self.keeper.same(&order.before)?;
        Ok(told)
    }

    /// Whether an order's engine is the one at the cursor, and its buckets are the next ready ones. It wants
    /// memory too where the engine is lent.
    pub fn is_at(&self, alloc: Global, order: &Order<FragMill>) -> Result<bool, NoMemory>
        requires { (ops : List OpSpec) × (x : Inputs) × (o : Outputs) × CanMillReady ops self.now x o }
        ensures { IfOk result (λ at. (ops : List OpSpec) → (x : Inputs) → (o : Outputs) → CanMillReady ops self.now x o
            → (IsTrue at ↔ IsAt ops self.now x order.now)) }
    {
        let count = order.buckets.len() as u64;
        let has_engine = self.has_engine(order)?;
        if !has_engine || self.ready() < count {
            return Ok(false);
        }
        if count == 0 {
            return Ok(true);
        }
        let buckets = next_buckets(alloc, &self.inputs, count)?;
        Ok(buckets.same(&order.buckets))
    }

    /// Goes on behind so many ready buckets whose work was done apart, and gives what is new as `mill`. If the
    /// engine was lent, that is over.
    pub fn put(
        &mut self,
        alloc: Global,
        after: FragMill,
        outputs: Tuples,
        count: u64,
        done: bool,
    ) -> Result<Sends, NoMemory>
        requires { (ops : List OpSpec) × (x : Inputs) × (o : Outputs) × CanPut ops self.old x o count after outputs }
        ensures fixed { IfOk result (λ sends. IsSetAs self.old self.new) }
        ensures milled { IfOk result (λ sends. (ops : List OpSpec) → (x : Inputs) → (o : Outputs)
            → CanPut ops self.old x o count after outputs
            → IsMilled ops self.old self.new x o count done sends.items) }
    {
        self.keeper.replace(after);
        self.inputs.advance(count);
        let bound = self.inputs.cursor() * self.inputs.width();
        let new = Fresh {
            stable: outputs,
            bound: Some(bound),
            tentative: Listed::from_vec(Vec::new(alloc)),
            passed: None,
            done,
        };
        let sends = give(alloc, &mut self.output, new)?;
        Ok(sends)
    }
}
