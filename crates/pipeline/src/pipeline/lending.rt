//! The engine, lent for work that is done apart.
ghost use Rattle.std.specs.Prelude.{◌≡◌, List, IfOk};
ghost use Rattle.dpc_model.specs.Parts.{Inputs, Outputs};
ghost use Rattle.dpc_model.specs.declared.operators.OpSpec.{OpSpec};
ghost use Rattle.law_buckets.specs.Series.{buckets_from};
ghost use Rattle.pipeline.specs.Flowing.{IsMillOf, IsEngineOf, StandsForData, CanMill};

use crate::milling::next_buckets;
use crate::pipeline::Pipeline;
use dpc_lists::faults::NoMemory;
use dpc_lists::lists::Listed;
use dpc_model::tuples::Tagged;
use fragment_mill::mill::FragMill;
use std::alloc::Global;

impl Pipeline {
    /// The engine at the cursor itself and the next buckets, for work that is done apart. Until `put` goes on
    /// behind the buckets a spare engine of the same operators stands in its place. What contracts see stays,
    /// also where it wants memory. Whatever needs the engine while it is out wants memory, and so does this.
    pub fn lend(
        &mut self,
        alloc: Global,
        count: u64,
        spare: FragMill,
    ) -> Result<(FragMill, Listed<Listed<Tagged>>), NoMemory>
        requires can { (ops : List OpSpec) × (x : Inputs) × (o : Outputs) × CanMill ops self.old x o count }
        requires spare { (ops : List OpSpec) → (x : Inputs) → (o : Outputs) → StandsForData ops self.old x o
            → IsMillOf ops self.old.union.width spare }
        ensures engine { IfOk result (λ w. (ops : List OpSpec) → (x : Inputs) → (o : Outputs) → CanMill ops self.old x o count
            → IsEngineOf ops self.old.union.width x w.0) }
        ensures buckets { IfOk result (λ w. (ops : List OpSpec) → (x : Inputs) → (o : Outputs) → CanMill ops self.old x o count
            → w.1 ≡ buckets_from self.old.union.width x x.cursor count) }
        ensures stays { self.new ≡ self.old }
    {
        let buckets = next_buckets(alloc, &self.inputs, count)?;
        let Ok(engine) = self.keeper.lend(spare) else {
            return Err(NoMemory);
        };
        Ok((engine, buckets))
    }
}
