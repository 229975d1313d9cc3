//! Why a script has no run.
ghost use Rattle.std.specs.Prelude.{◌≡◌};
ghost use Rattle.lockstep.specs.Faults.{fault_of};
ghost use Rattle.lockstep.specs.declared.faults.RunFault.TheVariants as run_fault;

use dpc_lists::faults::NoMemory;
use std::alloc::{AllocError, AllocFailed};
use world_core::faults::ApplyFault;

#[derive(Clone, Copy, PartialEq, Eq, Debug)]
pub enum RunFault {
    /// Memory is wanted, or a number that lies past its range.
    NoMemory,
    /// An event would make more envelopes, or items in them, than a run may have: so many.
    TooLong { envelopes: u64, items: u64 },
}

impl From<ApplyFault> for RunFault {
    ghost from_gives = { λ fault run. run ≡ fault_of fault };

    fn from(fault: ApplyFault) -> RunFault {
        match fault {
            ApplyFault::NoMemory | ApplyFault::Spent => RunFault::NoMemory,
            ApplyFault::TooLong { envelopes, items } => RunFault::TooLong { envelopes, items },
        }
    }
}

impl From<NoMemory> for RunFault {
    ghost from_gives = { λ _ run. run ≡ run_fault.NoMemory };

    fn from(_fault: NoMemory) -> RunFault {
        RunFault::NoMemory
    }
}
