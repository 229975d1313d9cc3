//! Engines that take one bucket of inputs after another.
ghost use Rattle.std.specs.Prelude.{◌≡◌, ◌+◌, ◌*◌, ◌^◌, ◌<◌, ◌≤◌, ◌++◌, ◌↔◌, ℕ, List, [], Bool, true, false, Option, unwrap_or, length, All, IfOk, OnOk, OnErr, is_err, IsTrue};
ghost use Rattle.std.specs.List.{AllAdjacentBelow};
ghost use Rattle.dpc_model.specs.Engines.{Accepts, FitsBucket, TookAlike, engine_value, added_output, precedes};
ghost use Rattle.dpc_model.specs.declared.operators.OpSpec.{OpSpec};
ghost use Rattle.dpc_model.specs.declared.tuples.Tagged.{Tagged};

use crate::faults::StepFault;
use crate::tuples::{Tagged, Tuples};
use std::alloc::Global;

/// Whether each input has a time from `begin` on and below `end`.
fn lie_between(inputs: &[Tagged], begin: u64, end: u64) -> bool
    ensures { IsTrue result ↔ All (λ (x : Tagged). (begin ≤ x.tuple.stime) × (x.tuple.stime < end)) inputs.now }
{
    inputs
        .iter()
        .all(|x| begin <= x.tuple.stime && x.tuple.stime < end)
}

/// Whether each input may stand before the next: by time, then by port.
fn are_in_order(inputs: &[Tagged]) -> bool
    ensures { IsTrue result ↔ AllAdjacentBelow (λ x y. IsTrue (precedes x y)) inputs.now (length inputs.now) }
{
    for i in 1..inputs.len() {
        let (x, y) = (&inputs[i - 1], &inputs[i]);
        let precedes = x.tuple.stime < y.tuple.stime
            || (x.tuple.stime == y.tuple.stime && x.port <= y.port);
        if !precedes {
            return false;
        }
    }
    true
}

/// Whether these are inputs of bucket k, in order of time and port, and the bucket ends below 2^64.
pub fn fits_bucket(inputs: &[Tagged], width: u64, k: u64) -> bool
    ensures { IsTrue result ↔ FitsBucket width k inputs.now }
{
    let end = (u128::from(k) + 1) * u128::from(width);
    match u64::try_from(end) {
        Ok(end) => lie_between(inputs, end - width, end) && are_in_order(inputs),
        Err(_) => false,
    }
}

/// The operators of a fragment, or one operator, over buckets.
pub trait Engine: Sized {
    /// The width of the buckets that it takes. None: it takes any inputs.
    ghost width: { Self → Option ℕ };

    /// The operators that it is made of, without names.
    ghost operators: { Self → List OpSpec };

    /// The next bucket.
    ghost next: { Self → ℕ };

    /// A call wanted memory, and there was no reset since.
    ghost is_spent: { Self → Bool };

    /// It took exactly these inputs, those of the buckets below this one.
    ghost after: { Self → List Tagged → ℕ → Type 0 };

    /// Takes the inputs of the next bucket, and answers the output that they add.
    fn bucket(&mut self, alloc: Global, inputs: &[Tagged], k: u64) -> Result<Tuples, StepFault>
        requires next { k ≡ next self.old }
        requires range { k + 1 < 2 ^ 64 }
        requires accepts { Accepts (width self.old) k inputs.now }
        ensures answer { IfOk result (λ out. (before : List Tagged) → after self.old before k
            → out ≡ added_output (engine_value (operators self.old)) (unwrap_or (width self.old) 0) before inputs.now k) }
        ensures after { OnOk result ((before : List Tagged) → after self.old before k
            → after self.new (before ++ inputs.now) (k + 1)) }
        ensures next { OnOk result (next self.new ≡ k + 1) }
        ensures kept { OnErr result (next self.new ≡ next self.old) }
        ensures spent { result ≡ Err StepFault.Spent ↔ is_spent self.old ≡ true }
        ensures stays { IsTrue (is_spent self.new) ↔ IsTrue (is_err result) }
        ensures operators { operators self.new ≡ operators self.old }
        ensures width { width self.new ≡ width self.old };

    /// The same engine in the same state.
    fn copy(&self, alloc: Global) -> Result<Self, StepFault>
        ensures same { IfOk result (λ other. other ≡ self.now) }
        ensures spent { result ≡ Err StepFault.Spent ↔ is_spent self.now ≡ true };

    /// Whether the two are the same engine in the same state. What an unspent engine is made of, and what it
    /// took, determines its state.
    fn same(&self, other: &Self) -> bool
        ensures same { IsTrue result ↔ (self.now ≡ other.now) }
        ensures determined { (xs : List Tagged) (k : ℕ)
            → TookAlike width operators is_spent after self.now other.now xs k → self.now ≡ other.now };

    /// The state before bucket 0.
    fn reset(&mut self)
        ensures after { after self.new [] 0 }
        ensures next { next self.new ≡ 0 }
        ensures spent { is_spent self.new ≡ false }
        ensures operators { operators self.new ≡ operators self.old }
        ensures width { width self.new ≡ width self.old };
}
