//! Buckets that are processed stably.
ghost use Rattle.std.specs.Prelude.{◌≡◌, ◌<◌, List, IfOk};
ghost use Rattle.dpc_model.specs.Parts.{Inputs, processed};
ghost use Rattle.dpc_model.specs.declared.operators.OpSpec.{OpSpec};
ghost use Rattle.sunion.specs.Unions.{StandsForInputs};
ghost use Rattle.law_buckets.specs.Series.{buckets_from, AreReady};
ghost use Rattle.pipeline.specs.Flowing.{HasSameSetting};
ghost use Rattle.pipeline.specs.Running.{StandsForWork, HasRun, CanAdvance, HasAdvanced};

use crate::running::run;
use checkpoint_redo::keeper::Keeper;
use dpc_lists::faults::NoMemory;
use dpc_lists::lists::Listed;
use dpc_model::tuples::{Tagged, Tuple};
use fragment_mill::mill::FragMill;
use std::alloc::Global;
use sunion::sunion::SUnion;

/// Processes so many ready buckets, and gives what they add. The inputs stay.
fn run_ready(
    alloc: Global,
    inputs: &SUnion,
    keeper: &mut Keeper<FragMill>,
    count: u64,
) -> Result<Vec<Tuple>, NoMemory>
    requires { (ops : List OpSpec) × (x : Inputs) × StandsForWork ops inputs.now keeper.old x × AreReady inputs.now.width x count }
    ensures held { IfOk result (λ added. keeper.new.keeper.held ≡ keeper.old.keeper.held) }
    ensures ran { IfOk result (λ added. (ops : List OpSpec) → (x : Inputs) → StandsForWork ops inputs.now keeper.old x
        → AreReady inputs.now.width x count
        → HasRun ops inputs.now.width keeper.new.keeper.state (processed inputs.now.width x)
        (buckets_from inputs.now.width x x.cursor count) x.cursor added.items) }
{
    let first = inputs.cursor();
    let mut added = Vec::new(alloc);
    for i in 0..count {
        let k = first + i;
        let bucket = inputs.bucket(alloc, k)?;
        run(alloc, keeper, &mut added, bucket.as_slice(), k)?;
    }
    Ok(added)
}

/// The next buckets of the inputs.
pub(crate) fn next_buckets(
    alloc: Global,
    inputs: &SUnion,
    count: u64,
) -> Result<Listed<Listed<Tagged>>, NoMemory>
    requires { (x : Inputs) × (0 < inputs.now.width) × StandsForInputs inputs.now x × AreReady inputs.now.width x count }
    ensures { IfOk result (λ buckets. (x : Inputs) → StandsForInputs inputs.now x → AreReady inputs.now.width x count
        → buckets ≡ buckets_from inputs.now.width x x.cursor count) }
{
    let first = inputs.cursor();
    let mut buckets = Vec::new(alloc);
    for i in 0..count {
        let bucket = inputs.bucket(alloc, first + i)?;
        buckets.push(Listed::from_vec(bucket))?;
    }
    Ok(Listed::from_vec(buckets))
}

/// Processes so many ready buckets, moves the cursor over them, and gives what they add.
pub(crate) fn advance(
    alloc: Global,
    inputs: &mut SUnion,
    keeper: &mut Keeper<FragMill>,
    count: u64,
) -> Result<Vec<Tuple>, NoMemory>
    requires { (ops : List OpSpec) × (x : Inputs) × StandsForWork ops inputs.old keeper.old x × CanAdvance inputs.old.width x count }
    ensures setting { IfOk result (λ added. HasSameSetting inputs.old inputs.new) }
    ensures advanced { IfOk result (λ added. (ops : List OpSpec) → (x : Inputs)
        → StandsForWork ops inputs.old keeper.old x → CanAdvance inputs.old.width x count
        → HasAdvanced ops inputs.new keeper.new inputs.old.width x count added.items) }
{
    if count == 0 {
        inputs.advance(0);
        return Ok(Vec::new(alloc));
    }
    let added = run_ready(alloc, inputs, keeper, count)?;
    inputs.advance(count);
    Ok(added)
}
