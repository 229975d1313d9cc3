//! Why an event did not happen, or work was not put back.
ghost use Rattle.std.specs.Prelude.{◌≡◌};
ghost use Rattle.world_core.specs.Handing.{fault_of_parts};
ghost use Rattle.world_core.specs.Runs.{fault_of};
ghost use Rattle.world_core.specs.declared.faults.ApplyFault.TheVariants as apply_fault;
ghost use Rattle.world_core.specs.declared.faults.CommitFault.TheVariants as commit_fault;

use dpc_lists::faults::NoMemory;
use node_core::faults::Point;
use std::alloc::{AllocError, AllocFailed};
use world_parts::faults::{CommitFault as PartFault, EventFault};

#[derive(Clone, Copy, PartialEq, Eq, Debug)]
pub enum ApplyFault {
    NoMemory,
    /// An earlier event wanted memory, or would have passed a limit.
    Spent,
    /// It would make more envelopes, or items in them, than a run may have: so many.
    TooLong { envelopes: u64, items: u64 },
}

impl From<NoMemory> for ApplyFault {
    ghost from_gives = { λ _ fault. fault ≡ apply_fault.NoMemory };

    fn from(_fault: NoMemory) -> ApplyFault {
        ApplyFault::NoMemory
    }
}

impl From<AllocError> for ApplyFault {
    ghost from_gives = { λ _ fault. fault ≡ apply_fault.NoMemory };

    fn from(_fault: AllocError) -> ApplyFault {
        ApplyFault::NoMemory
    }
}

impl<T: Drop> From<AllocFailed<T>> for ApplyFault {
    ghost from_gives = { λ _ fault. fault ≡ apply_fault.NoMemory };

    fn from(_fault: AllocFailed<T>) -> ApplyFault {
        ApplyFault::NoMemory
    }
}

impl From<EventFault> for ApplyFault {
    ghost from_gives = { λ event fault. fault ≡ fault_of event };

    fn from(fault: EventFault) -> ApplyFault {
        match fault {
            EventFault::NoMemory => ApplyFault::NoMemory,
            EventFault::TooLong { envelopes, items } => ApplyFault::TooLong { envelopes, items },
        }
    }
}

/// Why work that was done apart is not put back.
#[derive(Clone, Copy, PartialEq, Eq)]
pub enum CommitFault {
    NoMemory,
    /// An earlier event wanted memory, or would have passed a limit.
    Spent,
    /// It would make more envelopes, or items in them, than a run may have: so many.
    TooLong { envelopes: u64, items: u64 },
    /// The node is down, or does not stand any more where the order was taken.
    Stale { had: Point, needed: Point },
}

impl From<NoMemory> for CommitFault {
    ghost from_gives = { λ _ fault. fault ≡ commit_fault.NoMemory };

    fn from(_fault: NoMemory) -> CommitFault {
        CommitFault::NoMemory
    }
}

impl From<AllocError> for CommitFault {
    ghost from_gives = { λ _ fault. fault ≡ commit_fault.NoMemory };

    fn from(_fault: AllocError) -> CommitFault {
        CommitFault::NoMemory
    }
}

impl From<PartFault> for CommitFault {
    ghost from_gives = { λ part fault. fault ≡ fault_of_parts part };

    fn from(fault: PartFault) -> CommitFault {
        match fault {
            PartFault::NoMemory => CommitFault::NoMemory,
            PartFault::TooLong { envelopes, items } => CommitFault::TooLong { envelopes, items },
            PartFault::Stale { had, needed } => CommitFault::Stale { had, needed },
        }
    }
}
