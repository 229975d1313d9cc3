//! Why an event was not made, or work not put back.
ghost use Rattle.std.specs.Prelude.{◌≡◌};
ghost use Rattle.world_parts.specs.Handing.{fault_of_node, fault_of_event};
ghost use Rattle.world_parts.specs.declared.faults.EventFault.TheVariants as event_fault;

use dpc_lists::faults::NoMemory;
use dpc_model::faults::StepFault;
use node_core::faults::{CommitFault as NodeFault, Point};
use std::alloc::{AllocError, AllocFailed};

#[derive(Clone, Copy, PartialEq, Eq, Debug)]
pub enum EventFault {
    NoMemory,
    /// It would make more envelopes, or items in them, than a run may have: so many.
    TooLong { envelopes: u64, items: u64 },
}

impl From<NoMemory> for EventFault {
    ghost from_gives = { λ _ fault. fault ≡ event_fault.NoMemory };

    fn from(_fault: NoMemory) -> EventFault {
        EventFault::NoMemory
    }
}

impl From<StepFault> for EventFault {
    ghost from_gives = { λ _ fault. fault ≡ event_fault.NoMemory };

    fn from(_fault: StepFault) -> EventFault {
        EventFault::NoMemory
    }
}

impl From<AllocError> for EventFault {
    ghost from_gives = { λ _ fault. fault ≡ event_fault.NoMemory };

    fn from(_fault: AllocError) -> EventFault {
        EventFault::NoMemory
    }
}

impl<T: Drop> From<AllocFailed<T>> for EventFault {
    ghost from_gives = { λ _ fault. fault ≡ event_fault.NoMemory };

    fn from(_fault: AllocFailed<T>) -> EventFault {
        EventFault::NoMemory
    }
}

/// Why work that was done apart is not put back.
#[derive(Clone, Copy, PartialEq, Eq)]
pub enum CommitFault {
    NoMemory,
    /// It would make more envelopes, or items in them, than a run may have: so many.
    TooLong { envelopes: u64, items: u64 },
    /// The node is down, or does not stand any more where the order was taken.
    Stale { had: Point, needed: Point },
}

impl From<NodeFault> for CommitFault {
    ghost from_gives = { λ node fault. fault ≡ fault_of_node node };

    fn from(fault: NodeFault) -> CommitFault {
        match fault {
            NodeFault::NoMemory | NodeFault::Spent => CommitFault::NoMemory,
            NodeFault::Stale { had, needed } => CommitFault::Stale { had, needed },
        }
    }
}

impl From<EventFault> for CommitFault {
    ghost from_gives = { λ event fault. fault ≡ fault_of_event event };

    fn from(fault: EventFault) -> CommitFault {
        match fault {
            EventFault::NoMemory => CommitFault::NoMemory,
            EventFault::TooLong { envelopes, items } => CommitFault::TooLong { envelopes, items },
        }
    }
}
