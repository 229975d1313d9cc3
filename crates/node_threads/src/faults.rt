//! Why a run by several threads did not come to its end.
ghost use Rattle.std.specs.Prelude.{◌≡◌};
ghost use Rattle.node_threads.specs.declared.faults.LiveFault.TheVariants as live_fault;

use crate::stop::Stop;
use dpc_lists::faults::NoMemory;
use std::alloc::{AllocError, AllocFailed};
use world_core::world::World;

/// Why a run by several threads has no end.
#[derive(Drop)]
pub enum LiveFault {
    NoMemory,
    /// An event would make more envelopes, or items in them, than a run may have, behind the journal of this world.
    TooLong(World, Stop),
}

impl From<NoMemory> for LiveFault {
    ghost from_gives = { λ _ fault. fault ≡ live_fault.NoMemory };

    fn from(_fault: NoMemory) -> LiveFault {
        LiveFault::NoMemory
    }
}

impl From<AllocError> for LiveFault {
    ghost from_gives = { λ _ fault. fault ≡ live_fault.NoMemory };

    fn from(_fault: AllocError) -> LiveFault {
        LiveFault::NoMemory
    }
}

impl<T: Drop> From<AllocFailed<T>> for LiveFault {
    ghost from_gives = { λ _ fault. fault ≡ live_fault.NoMemory };

    fn from(_fault: AllocFailed<T>) -> LiveFault {
        LiveFault::NoMemory
    }
}
