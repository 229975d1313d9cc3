//! Buckets one after another through an engine.
ghost use Rattle.std.specs.Prelude.{◌≡◌, ◌+◌, ◌^◌, ◌<◌, ◌++◌, List, length, false, unwrap_or, IfOk, OnOk};
ghost use Rattle.dpc_model.specs.Operators.{all_of};
ghost use Rattle.dpc_model.specs.Engines.{engine_value, AcceptsAll};
ghost use Rattle.dpc_model.specs.declared.tuples.Tagged.{Tagged};
ghost use Rattle.checkpoint_redo.specs.Keeping.{added_by};

use dpc_lists::faults::NoMemory;
use dpc_lists::lists::Listed;
use dpc_lists::steps::Steps;
use dpc_model::engines::Engine;
use dpc_model::tuples::{Tagged, Tuples};
use std::alloc::Global;
use std::sync::ledger::Ledger;

/// Takes an engine through buckets from its next one on, and counts a step for each. The answer is what
/// they add. Where it wants memory, nothing is known of what the engine took.
pub fn redo<M: Engine, L: Ledger>(
    alloc: Global,
    engine: &mut M,
    buckets: &[Listed<Tagged>],
    k: u64,
    steps: &mut Steps<L>,
) -> Result<Tuples, NoMemory>
    requires next { k ≡ M.next engine.old }
    requires fresh { M.is_spent engine.old ≡ false }
    requires range { k + length buckets.now < 2 ^ 64 }
    requires accepts { AcceptsAll (M.width engine.old) k buckets.now }
    ensures answer { IfOk result (λ out. (before : List Tagged) → M.after engine.old before k
        → out ≡ added_by (engine_value (M.operators engine.old)) (unwrap_or (M.width engine.old) 0) before buckets.now k) }
    ensures after { OnOk result ((before : List Tagged) → M.after engine.old before k
        → M.after engine.new (before ++ all_of buckets.now) (k + length buckets.now)) }
    ensures next { OnOk result (M.next engine.new ≡ k + length buckets.now) }
    ensures fresh { OnOk result (M.is_spent engine.new ≡ false) }
    ensures steps { OnOk result (steps.new ≡ steps.old + length buckets.now) }
    ensures operators { M.operators engine.new ≡ M.operators engine.old }
    ensures width { M.width engine.new ≡ M.width engine.old }
{
    let mut outputs = Vec::new(alloc);
    for (i, bucket) in buckets.iter().enumerate() {
        let Ok(output) = engine.bucket(alloc, bucket.as_slice(), k + i as u64) else {
            return Err(NoMemory);
        };
        outputs.append(&mut output.into_vec())?;
        steps.tick();
    }
    Ok(Listed::from_vec(outputs))
}
