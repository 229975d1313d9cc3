//! Why a script has no run with saves.
ghost use Rattle.std.specs.Prelude.{◌≡◌};
ghost use Rattle.saved_runs.specs.Faults.{fault_of, stop_fault};
ghost use Rattle.saved_runs.specs.declared.faults.SavesFault.TheVariants as saves;

use dpc_lists::faults::NoMemory;
use lockstep::faults::RunFault;
use phase_saves::kept::SaveStop;
use std::alloc::AllocError;

#[derive(Clone, Copy, PartialEq, Eq, Debug)]
pub enum SavesFault {
    /// Memory is wanted, or a number that lies past its range.
    NoMemory,
    /// An event would make more envelopes, or items in them, than a run may have: so many.
    TooLong { envelopes: u64, items: u64 },
    DiskFault,
}

impl From<RunFault> for SavesFault {
    ghost from_gives = { λ fault saves. saves ≡ fault_of fault };

    fn from(fault: RunFault) -> SavesFault {
        match fault {
            RunFault::NoMemory => SavesFault::NoMemory,
            RunFault::TooLong { envelopes, items } => SavesFault::TooLong { envelopes, items },
        }
    }
}

impl From<SaveStop> for SavesFault {
    ghost from_gives = { λ stop saves. saves ≡ stop_fault stop };

    fn from(stop: SaveStop) -> SavesFault {
        match stop {
            SaveStop::NoMemory => SavesFault::NoMemory,
            SaveStop::DiskFault => SavesFault::DiskFault,
        }
    }
}

impl From<NoMemory> for SavesFault {
    ghost from_gives = { λ _ fault. fault ≡ saves.NoMemory };

    fn from(_fault: NoMemory) -> SavesFault {
        SavesFault::NoMemory
    }
}

impl From<AllocError> for SavesFault {
    ghost from_gives = { λ _ fault. fault ≡ saves.NoMemory };

    fn from(_fault: AllocError) -> SavesFault {
        SavesFault::NoMemory
    }
}
