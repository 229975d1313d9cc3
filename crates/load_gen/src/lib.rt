//! The generated load of a seed: a script of two random logs, six replicated fragments and forty failures.
#![tactic(auto)]

mod draws;
mod phases;
mod plan;

ghost use Rattle.std.specs.Prelude.{◌≡◌, IfOk};
ghost use Rattle.load_gen.specs.Generated.{generated};

use crate::draws::Generator;
use crate::phases::{failure_draws, phases};
use crate::plan::plan;
use dpc_lists::faults::NoMemory;
use dpc_model::scripts::Script;
use std::alloc::Global;

/// The load of a seed. The same seed gives the same script; the only error is want of memory.
pub fn generate(alloc: Global, seed: u64) -> Result<Script, NoMemory>
    ensures { IfOk result (λ s. s ≡ generated seed) }
{
    let mut generator = Generator::new(seed);
    let plan = plan(alloc, &mut generator)?;
    let draws = failure_draws(alloc, &mut generator)?;
    let phases = phases(alloc, draws.as_slice())?;
    Ok(Script {
        plan,
        phases,
        settle: true,
    })
}
