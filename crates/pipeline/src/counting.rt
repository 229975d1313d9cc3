//! How many stable tuples of each port were processed.
ghost use Rattle.std.specs.Prelude.{◌≡◌, ◌*◌, map, length, IfOk};
ghost use Rattle.dpc_model.specs.Parts.{Inputs, done_in, AreInOrder};
ghost use Rattle.sunion.specs.Unions.{StandsForInputs};

use crate::inlets::count_done;
use dpc_lists::faults::NoMemory;
use std::alloc::Global;
use sunion::sunion::SUnion;

/// The time at which the cursor's bucket begins.
fn cursor_time(inputs: &SUnion) -> u128
    ensures { result ≡ inputs.now.union.cursor * inputs.now.width }
{
    u128::from(inputs.cursor()) * u128::from(inputs.width())
}

/// By port how many stable tuples lie below the cursor's bucket.
pub(crate) fn done_counts(alloc: Global, inputs: &SUnion) -> Result<Vec<u64>, NoMemory>
    ensures { IfOk result (λ counts. (x : Inputs) → StandsForInputs inputs.now x → AreInOrder x
        → counts.items ≡ map length (done_in inputs.now.width x)) }
{
    let time = cursor_time(inputs);
    let mut counts = Vec::with_capacity(alloc, inputs.ports())?;
    for port in 0..inputs.ports() {
        counts.push(count_done(inputs.inlet(port), time))?;
    }
    Ok(counts)
}
