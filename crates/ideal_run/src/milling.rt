//! The mills of the first fragments of a plan, all of them bucket by bucket.
ghost use Rattle.std.specs.Prelude.{◌≡◌, ◌+◌, ◌/◌, ◌<◌, ◌≤◌, length, IfOk, OnOk};
ghost use Rattle.dpc_model.specs.declared.plans.StreamRef.TheVariants.{Frag};
ghost use Rattle.ideal_run.specs.Buckets.{bucket_of, buckets_before, IsMillOf, AreMills};
ghost use Rattle.ideal_run.specs.IdealPlans.{IsIdealPlan};

use crate::inputs::bucket_inputs;
use dpc_lists::faults::NoMemory;
use dpc_model::engines::Engine;
use dpc_model::plans::Plan;
use dpc_model::tuples::Tuples;
use fragment_mill::mill::FragMill;
use std::alloc::Global;

/// Mills bucket k of a fragment, where those before it gave these: the bucket of its failure-free stream.
fn mill_bucket(
    alloc: Global,
    plan: &Plan,
    mill: &mut FragMill,
    outputs: &[Tuples],
    k: u64,
) -> Result<Tuples, NoMemory>
    requires plan { IsIdealPlan plan.now }
    requires frag { length outputs.now < length plan.now.frags }
    requires bucket { k < plan.now.end / plan.now.width }
    requires outputs { outputs.now ≡ buckets_before plan.now k (length outputs.now) }
    requires mill { IsMillOf plan.now k (length outputs.now) mill.old }
    ensures output { IfOk result (λ output. output ≡ bucket_of plan.now k (Frag (length outputs.now))) }
    ensures after { OnOk result (IsMillOf plan.now (k + 1) (length outputs.now) mill.new) }
{
    let reads = plan.frags.as_slice()[outputs.len()].inputs.as_slice();
    let bucket = bucket_inputs(alloc, plan, outputs, reads, k)?;
    let Ok(output) = mill.bucket(alloc, bucket.as_slice(), k) else {
        return Err(NoMemory);
    };
    Ok(output)
}

/// Mills bucket k of the first fragments in order: the bucket of each one's failure-free stream.
pub(crate) fn mill_all(
    alloc: Global,
    plan: &Plan,
    mills: &mut Vec<FragMill>,
    k: u64,
) -> Result<Vec<Tuples>, NoMemory>
    requires plan { IsIdealPlan plan.now }
    requires few { length mills.old.items ≤ length plan.now.frags }
    requires bucket { k < plan.now.end / plan.now.width }
    requires mills { AreMills plan.now k mills.old.items }
    ensures outputs { IfOk result (λ outputs. outputs.items ≡ buckets_before plan.now k (length mills.old.items)) }
    ensures after { OnOk result (AreMills plan.now (k + 1) mills.new.items) }
    ensures long { length mills.new.items ≡ length mills.old.items }
{
    let mut outputs = Vec::with_capacity(alloc, mills.len())?;
    for frag in 0..mills.len() {
        let output = mill_bucket(alloc, plan, &mut mills[frag], outputs.as_slice(), k)?;
        outputs.push(output)?;
    }
    Ok(outputs)
}

/// The mills of the first fragments, before bucket 0.
pub(crate) fn new_mills(alloc: Global, plan: &Plan, count: usize) -> Result<Vec<FragMill>, NoMemory>
    requires plan { IsIdealPlan plan.now }
    requires few { count ≤ length plan.now.frags }
    ensures mills { IfOk result (λ mills. AreMills plan.now 0 mills.items) }
    ensures long { IfOk result (λ mills. length mills.items ≡ count) }
{
    let mut mills = Vec::with_capacity(alloc, count)?;
    for frag in 0..count {
        mills.push(FragMill::new(alloc, plan, frag as u64)?)?;
    }
    Ok(mills)
}
