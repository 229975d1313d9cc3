//! The failure-free streams, given row by row as they are milled.
ghost use Rattle.std.specs.Prelude.{◌≡◌, ◌+◌, ◌/◌, ◌<◌, ◌≤◌, ℕ, length, OnOk, OnErr};
ghost use Rattle.dpc_model.specs.Fragments.{ideal};
ghost use Rattle.dpc_model.specs.declared.plans.StreamRef.TheVariants.{Frag};
ghost use Rattle.ideal_run.specs.Buckets.{bucket_of, buckets_before, IsMillOf};
ghost use Rattle.ideal_run.specs.IdealPlans.{IsIdealPlan};
ghost use Rattle.ops_join.specs.RowsOut.{Takes, TakesFirst};

use crate::inputs::{bucket_inputs, bucket_of};
use crate::milling::{mill_all, new_mills};
use dpc_model::plans::{Plan, StreamRef};
use dpc_model::tuples::Tuples;
use fragment_mill::mill::FragMill;
use ops_join::rows_out::{Ended, RowSink, give_all};
use std::alloc::Global;

/// Mills bucket k of a fragment, where those before it gave these, and gives its rows.
fn give_bucket<K, R: RowSink<K>>(
    alloc: Global,
    plan: &Plan,
    mill: &mut FragMill,
    outputs: &[Tuples],
    k: u64,
    sink: &mut R,
    out: &mut K,
) -> Result<(), Ended>
    requires plan { IsIdealPlan plan.now }
    requires frag { length outputs.now < length plan.now.frags }
    requires bucket { k < plan.now.end / plan.now.width }
    requires outputs { outputs.now ≡ buckets_before plan.now k (length outputs.now) }
    requires mill { IsMillOf plan.now k (length outputs.now) mill.old }
    ensures rows { OnOk result (Takes (R.took sink.old out.old) (R.took sink.new out.new)
        (bucket_of plan.now k (Frag (length outputs.now)))) }
    ensures first { OnErr result (TakesFirst (R.took sink.old out.old) (R.took sink.new out.new)
        (bucket_of plan.now k (Frag (length outputs.now)))) }
    ensures after { OnOk result (IsMillOf plan.now (k + 1) (length outputs.now) mill.new) }
{
    let reads = plan.frags.as_slice()[outputs.len()].inputs.as_slice();
    let bucket = bucket_inputs(alloc, plan, outputs, reads, k)?;
    mill.bucket_into(alloc, bucket.as_slice(), k, sink, out)?;
    Ok(())
}

/// Gives the rows of a stream that no fragment makes.
fn give_read<K, R: RowSink<K>>(
    plan: &Plan,
    stream: StreamRef,
    sink: &mut R,
    out: &mut K,
) -> Result<(), Ended>
    requires plan { IsIdealPlan plan.now }
    requires there { (f : ℕ) → stream ≡ Frag f → length plan.now.frags ≤ f }
    ensures rows { OnOk result (Takes (R.took sink.old out.old) (R.took sink.new out.new) (ideal plan.now stream)) }
    ensures first { OnErr result (TakesFirst (R.took sink.old out.old) (R.took sink.new out.new) (ideal plan.now stream)) }
{
    for k in 0..plan.end / plan.width {
        let rows = bucket_of(plan, &[], stream, k);
        give_all(rows, sink, out)?;
    }
    Ok(())
}

/// Gives the rows of a fragment's stream, bucket by bucket, and mills those before it.
fn give_milled<K, R: RowSink<K>>(
    alloc: Global,
    plan: &Plan,
    frag: usize,
    sink: &mut R,
    out: &mut K,
) -> Result<(), Ended>
    requires plan { IsIdealPlan plan.now }
    requires frag { frag < length plan.now.frags }
    ensures rows { OnOk result (Takes (R.took sink.old out.old) (R.took sink.new out.new) (ideal plan.now (Frag frag))) }
    ensures first { OnErr result (TakesFirst (R.took sink.old out.old) (R.took sink.new out.new) (ideal plan.now (Frag frag))) }
{
    let mut mills = new_mills(alloc, plan, frag)?;
    let mut own = FragMill::new(alloc, plan, frag as u64)?;
    for k in 0..plan.end / plan.width {
        let outputs = mill_all(alloc, plan, &mut mills, k)?;
        give_bucket(alloc, plan, &mut own, outputs.as_slice(), k, sink, out)?;
    }
    Ok(())
}

/// Gives the rows of a failure-free stream, bucket by bucket as they are milled. It stops where the sink wants no more, or memory
/// is wanting.
pub fn give_stream<K, R: RowSink<K>>(
    alloc: Global,
    plan: &Plan,
    stream: StreamRef,
    sink: &mut R,
    out: &mut K,
) -> Result<(), Ended>
    requires { IsIdealPlan plan.now }
    ensures rows { OnOk result (Takes (R.took sink.old out.old) (R.took sink.new out.new) (ideal plan.now stream)) }
    ensures first { OnErr result (TakesFirst (R.took sink.old out.old) (R.took sink.new out.new) (ideal plan.now stream)) }
{
    match stream {
        StreamRef::Source(_) => give_read(plan, stream, sink, out),
        StreamRef::Frag(frag) => {
            if frag < plan.frags.len() as u64 {
                give_milled(alloc, plan, frag as usize, sink, out)
            } else {
                give_read(plan, stream, sink, out)
            }
        }
    }
}
