//! Why a table is not told whole.
use diagram_reader::faults::ScriptFault;
use dpc_lists::faults::NoMemory;
use lockstep::faults::RunFault;
use std::alloc::AllocError;
use std::io;
use world_core::faults::ApplyFault;

/// Why a table is not told whole; each has the exit status that `borealis` would end with.
#[derive(Clone, Copy, PartialEq, Eq, Debug)]
pub(crate) enum Trouble {
    NoMemory,
    /// A text is no script.
    Refused,
    /// A script without crashes leaves a client open.
    Open,
    Unwritten,
    /// A run would pass a limit.
    TooLong,
}

impl Trouble {
    pub fn code(self) -> u8 {
        match self {
            Trouble::Refused => 2,
            Trouble::NoMemory => 3,
            Trouble::Open => 4,
            Trouble::Unwritten => 6,
            Trouble::TooLong => 7,
        }
    }
}

impl From<NoMemory> for Trouble {
    fn from(_fault: NoMemory) -> Trouble {
        Trouble::NoMemory
    }
}

impl From<AllocError> for Trouble {
    fn from(_fault: AllocError) -> Trouble {
        Trouble::NoMemory
    }
}

impl From<io::Error> for Trouble {
    fn from(_fault: io::Error) -> Trouble {
        Trouble::Unwritten
    }
}

impl From<ScriptFault> for Trouble {
    fn from(fault: ScriptFault) -> Trouble {
        match fault {
            ScriptFault::NoMemory => Trouble::NoMemory,
            ScriptFault::Refused(_) => Trouble::Refused,
        }
    }
}

impl From<RunFault> for Trouble {
    fn from(fault: RunFault) -> Trouble {
        match fault {
            RunFault::NoMemory => Trouble::NoMemory,
            RunFault::TooLong { .. } => Trouble::TooLong,
        }
    }
}

impl From<ApplyFault> for Trouble {
    fn from(fault: ApplyFault) -> Trouble {
        match fault {
            ApplyFault::NoMemory | ApplyFault::Spent => Trouble::NoMemory,
            ApplyFault::TooLong { .. } => Trouble::TooLong,
        }
    }
}
