//! What a fragment reads in a bucket, as one list.
ghost use Rattle.std.specs.Prelude.{◌≡◌, ◌+◌, ◌*◌, ◌^◌, ◌<◌, ◌≤◌, ◌⊎◌, ◌++◌, ℕ, [], map, length, IfOk, OnOk};
ghost use Rattle.dpc_model.specs.Streams.{cut, InOrder};
ghost use Rattle.dpc_model.specs.Engines.{from_time};
ghost use Rattle.dpc_lists.specs.Lists.{nth};
ghost use Rattle.dpc_model.specs.Fragments.{tag, serial, log_of, ReadsBelow};
ghost use Rattle.dpc_model.specs.declared.plans.StreamRef.TheVariants.{Frag};
ghost use Rattle.ideal_run.specs.Buckets.{bucket_of, buckets_before};
ghost use Rattle.ideal_run.specs.IdealPlans.{IsIdealPlan};

use dpc_lists::exact::Exact;
use dpc_lists::faults::NoMemory;
use dpc_model::plans::{Plan, StreamRef};
use dpc_model::streams::count_below;
use dpc_model::tuples::{Tagged, Tuple, Tuples};
use std::alloc::Global;

/// The log of a source, and none where there is no such source.
fn log(plan: &Plan, source: u64) -> &[Tuple]
    ensures { result.now ≡ log_of plan.now source }
{
    match plan.sources.as_slice().get(source as usize) {
        Some(source) => source.log.as_slice(),
        None => &[],
    }
}

/// The tuples from a time on.
fn from(tuples: &[Tuple], time: u64) -> &[Tuple]
    requires { InOrder tuples.now }
    ensures { result.now ≡ from_time time tuples.now }
{
    &tuples[count_below(tuples, time)..]
}

/// The tuples below a time.
fn below(tuples: &[Tuple], time: u64) -> &[Tuple]
    requires { InOrder tuples.now }
    ensures { result.now ≡ cut tuples.now time }
{
    &tuples[..count_below(tuples, time)]
}

/// Bucket k of the stream of this number, where the first fragments have these, and none where there is none.
fn numbered(outputs: &[Tuples], number: u64) -> &[Tuple]
    ensures { result.now ≡ nth [] outputs.now number }
{
    match outputs.get(number as usize) {
        Some(output) => output.as_slice(),
        None => &[],
    }
}

/// Bucket k of a failure-free stream, where the first fragments have these.
pub(crate) fn bucket_of<'a>(
    plan: &'a Plan,
    outputs: &'a [Tuples],
    stream: StreamRef,
    k: u64,
) -> &'a [Tuple]
    requires plan { IsIdealPlan plan.now }
    requires range { (k + 1) * plan.now.width < 2 ^ 64 }
    requires outputs { outputs.now ≡ buckets_before plan.now k (length outputs.now) }
    requires there { (f : ℕ) → stream ≡ Frag f → (f < length outputs.now) ⊎ (length plan.now.frags ≤ f) }
    ensures { result.now ≡ bucket_of plan.now k stream }
{
    match stream {
        StreamRef::Source(source) => {
            let rest = from(log(plan, source), k * plan.width);
            below(rest, (k + 1) * plan.width)
        }
        StreamRef::Frag(frag) => numbered(outputs, frag),
    }
}

/// Appends the tuples, tagged with a port.
fn append_port(
    alloc: Global,
    inputs: &mut Vec<Tagged>,
    port: u64,
    tuples: &[Tuple],
) -> Result<(), NoMemory>
    ensures { OnOk result (inputs.new.items ≡ inputs.old.items ++ map (tag port) tuples.now) }
{
    inputs.reserve(tuples.len())?;
    for tuple in tuples {
        let tuple = tuple.copy(alloc)?;
        inputs.push(Tagged { port, tuple })?;
    }
    Ok(())
}

/// Bucket k of the streams that a fragment reads, each tuple with its port, in order of time, port and place.
pub(crate) fn bucket_inputs(
    alloc: Global,
    plan: &Plan,
    outputs: &[Tuples],
    reads: &[StreamRef],
    k: u64,
) -> Result<Vec<Tagged>, NoMemory>
    requires plan { IsIdealPlan plan.now }
    requires range { (k + 1) * plan.now.width < 2 ^ 64 }
    requires outputs { outputs.now ≡ buckets_before plan.now k (length outputs.now) }
    requires reads { ReadsBelow (length outputs.now) reads.now }
    ensures { IfOk result (λ inputs. inputs.items ≡ serial (map (bucket_of plan.now k) reads.now)) }
{
    let mut inputs = Vec::new(alloc);
    for (port, stream) in reads.iter().enumerate() {
        let tuples = bucket_of(plan, outputs, *stream, k);
        append_port(alloc, &mut inputs, port as u64, tuples)?;
    }
    inputs.sort_by_key(|input| input.tuple.stime)?;
    Ok(inputs)
}
