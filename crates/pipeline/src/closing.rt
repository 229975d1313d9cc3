//! Buckets that are closed as they stand.
ghost use Rattle.std.specs.Prelude.{◌≡◌, ◌<◌, List, Some, IfOk, OnOk};
ghost use Rattle.dpc_model.specs.Parts.{Inputs};
ghost use Rattle.dpc_model.specs.PartStands.{at_cursor};
ghost use Rattle.dpc_model.specs.declared.operators.OpSpec.{OpSpec};
ghost use Rattle.law_buckets.specs.Series.{CanClose};
ghost use Rattle.pipeline.specs.Flowing.{HasSameSetting};
ghost use Rattle.pipeline.specs.Running.{StandsForWork, HasClosed};

use crate::running::run;
use checkpoint_redo::keeper::Keeper;
use dpc_lists::faults::NoMemory;
use dpc_model::tuples::Tuple;
use fragment_mill::mill::FragMill;
use std::alloc::Global;
use sunion::sunion::SUnion;

/// Keeps a copy of the state at the cursor, unless there is one.
fn hold(alloc: Global, keeper: &mut Keeper<FragMill>) -> Result<(), NoMemory>
    ensures { OnOk result (keeper.new.keeper ≡ record { state = keeper.old.keeper.state; held = Some (at_cursor keeper.old.keeper) }) }
{
    if keeper.is_held() {
        return Ok(());
    }
    let Ok(()) = keeper.hold(alloc) else {
        return Err(NoMemory);
    };
    Ok(())
}

/// Closes so many buckets as they stand, and processes them from the state at the frontier on. It
/// gives what they add.
fn close_some(
    alloc: Global,
    inputs: &mut SUnion,
    keeper: &mut Keeper<FragMill>,
    count: u64,
) -> Result<Vec<Tuple>, NoMemory>
    requires some { 0 < count }
    requires stands { (ops : List OpSpec) × (x : Inputs) × StandsForWork ops inputs.old keeper.old x × CanClose inputs.old.width x count }
    ensures setting { IfOk result (λ added. HasSameSetting inputs.old inputs.new) }
    ensures closed { IfOk result (λ added. (ops : List OpSpec) → (x : Inputs)
        → StandsForWork ops inputs.old keeper.old x → CanClose inputs.old.width x count
        → HasClosed ops inputs.new keeper.new inputs.old.width x count added.items) }
{
    hold(alloc, keeper)?;
    let mut added = Vec::new(alloc);
    for _i in 0..count {
        let k = inputs.cursor() + inputs.closed();
        let bucket = inputs.close(alloc)?;
        run(alloc, keeper, &mut added, bucket.as_slice(), k)?;
    }
    Ok(added)
}

/// Closes so many buckets as they stand, and gives what they add. Where there is none, nothing changes.
pub(crate) fn close(
    alloc: Global,
    inputs: &mut SUnion,
    keeper: &mut Keeper<FragMill>,
    count: u64,
) -> Result<Vec<Tuple>, NoMemory>
    requires { (ops : List OpSpec) × (x : Inputs) × StandsForWork ops inputs.old keeper.old x × CanClose inputs.old.width x count }
    ensures setting { IfOk result (λ added. HasSameSetting inputs.old inputs.new) }
    ensures closed { IfOk result (λ added. (ops : List OpSpec) → (x : Inputs)
        → StandsForWork ops inputs.old keeper.old x → CanClose inputs.old.width x count
        → HasClosed ops inputs.new keeper.new inputs.old.width x count added.items) }
{
    if count == 0 {
        return Ok(Vec::new(alloc));
    }
    close_some(alloc, inputs, keeper, count)
}
