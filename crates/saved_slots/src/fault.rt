//! Why a save, or an opening, is refused.
ghost use Rattle.std.specs.Prelude.{◌≡◌};
ghost use Rattle.saved_slots.specs.declared.fault.SaveFault.TheVariants.{NoMemory};
ghost use Rattle.saved_slots.specs.Faults.{fault_of};

use disk_model::disk::DiskStop;
use std::alloc::{AllocError, AllocFailed};

#[derive(Clone, Copy, Debug, PartialEq, Eq)]
pub enum SaveFault {
    NoMemory,
    DiskFault,
    Full { need: u64, room: u64 },
    Broken(u64),
    Reopen,
}

impl From<AllocError> for SaveFault {
    ghost from_gives = { λ _ fault. fault ≡ NoMemory };

    fn from(_: AllocError) -> Self {
        SaveFault::NoMemory
    }
}

impl<T: Drop> From<AllocFailed<T>> for SaveFault {
    ghost from_gives = { λ _ fault. fault ≡ NoMemory };

    fn from(_: AllocFailed<T>) -> Self {
        SaveFault::NoMemory
    }
}

impl From<DiskStop> for SaveFault {
    ghost from_gives = { λ stop fault. fault ≡ fault_of stop };

    fn from(stop: DiskStop) -> Self {
        match stop {
            DiskStop::NoMemory => SaveFault::NoMemory,
            DiskStop::Failed => SaveFault::DiskFault,
        }
    }
}
