//! Why an engine, or what stands on one, made no step.
ghost use Rattle.std.specs.Prelude.{◌≡◌};
ghost use Rattle.dpc_model.specs.declared.faults.StepFault.TheVariants as step;

use std::alloc::{AllocError, AllocFailed};

/// Why a step was not made.
#[derive(Clone, Copy, PartialEq, Eq, Debug)]
pub enum StepFault {
    NoMemory,
    /// An earlier call wanted memory, and the value was not reset since.
    Spent,
}

impl From<AllocError> for StepFault {
    ghost from_gives = { λ _ fault. fault ≡ step.NoMemory };

    fn from(_fault: AllocError) -> StepFault {
        StepFault::NoMemory
    }
}

impl<T: Drop> From<AllocFailed<T>> for StepFault {
    ghost from_gives = { λ _ fault. fault ≡ step.NoMemory };

    fn from(_fault: AllocFailed<T>) -> StepFault {
        StepFault::NoMemory
    }
}
