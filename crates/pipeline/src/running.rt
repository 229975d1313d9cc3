//! One bucket through the operators, and what is new to the readers.
ghost use Rattle.std.specs.Prelude.{◌≡◌, ◌+◌, ◌^◌, ◌<◌, ◌++◌, ◌∷◌, [], ℕ, List, Some, None, if◌then◌else◌, ◌&&◌, IfOk, OnOk};
ghost use Rattle.dpc_model.specs.Engines.{FitsBucket};
ghost use Rattle.dpc_model.specs.Sessions.{batches_of};
ghost use Rattle.dpc_model.specs.declared.operators.OpSpec.{OpSpec};
ghost use Rattle.dpc_model.specs.declared.tuples.Tagged.{Tagged};
ghost use Rattle.soutput.specs.Giving.{fresh_items, after_giving};
ghost use Rattle.pipeline.specs.Running.{HasRun};

use checkpoint_redo::keeper::Keeper;
use dpc_lists::faults::NoMemory;
use dpc_model::tuples::{Tagged, Tuple};
use fragment_mill::mill::FragMill;
use soutput::batches::Sends;
use soutput::fresh::Fresh;
use soutput::output::SOutput;
use std::alloc::{AllocError, Global};

/// Appends tuples behind others; where there are none, none is moved.
fn append(outputs: &mut Vec<Tuple>, mut tuples: Vec<Tuple>) -> Result<(), AllocError>
    ensures { OnOk result (outputs.new.items ≡ outputs.old.items ++ tuples.items) }
{
    if outputs.is_empty() {
        *outputs = tuples;
        return Ok(());
    }
    outputs.append(&mut tuples)?;
    Ok(())
}

/// Processes the next bucket, and appends what it adds.
pub(crate) fn run(
    alloc: Global,
    keeper: &mut Keeper<FragMill>,
    outputs: &mut Vec<Tuple>,
    bucket: &[Tagged],
    k: u64,
) -> Result<(), NoMemory>
    requires next { k ≡ keeper.old.keeper.state.next }
    requires range { k + 1 < 2 ^ 64 }
    requires fits { FitsBucket keeper.old.keeper.state.width k bucket.now }
    ensures held { OnOk result (keeper.new.keeper.held ≡ keeper.old.keeper.held) }
    ensures ran { OnOk result ((ops : List OpSpec) → (width first : ℕ) → (before : List Tagged) → (buckets : List (List Tagged))
        → HasRun ops width keeper.old.keeper.state before buckets first outputs.old.items
        → HasRun ops width keeper.new.keeper.state before (buckets ++ bucket.now ∷ []) first outputs.new.items) }
{
    let Ok(output) = keeper.ahead(alloc, bucket, k) else {
        return Err(NoMemory);
    };
    append(outputs, output.into_vec())?;
    Ok(())
}

/// A time, where it is told.
pub(crate) fn some_if(told: bool, time: u64) -> Option<u64>
    ensures { result ≡ (if told then Some time else None) }
{
    if told { Some(time) } else { None }
}

/// How far tentative output is told to go: where the plan passes that on, and a bucket is closed.
pub(crate) fn told_upto(passing: bool, any_closed: bool, time: u64) -> Option<u64>
    ensures { result ≡ (if passing && any_closed then Some time else None) }
{
    some_if(passing && any_closed, time)
}

/// Appends what is new, and gives it in one batch to each open session.
pub(crate) fn give(alloc: Global, output: &mut SOutput, new: Fresh) -> Result<Sends, NoMemory>
    ensures sends { IfOk result (λ sends. sends.items ≡ batches_of (fresh_items output.old new) output.old.subs) }
    ensures after { OnOk result (output.new ≡ after_giving new output.old) }
{
    if !output.has_room(new.stable.len()) {
        return Err(NoMemory);
    }
    output.give(alloc, new)
}
