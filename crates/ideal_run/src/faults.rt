//! Why a text was not written whole.
ghost use Rattle.std.specs.Prelude.{◌≡◌};
ghost use Rattle.ideal_run.specs.declared.faults.WriteFault.TheVariants as fault;

use dpc_edge::faults::Failed;
use dpc_lists::faults::NoMemory;

#[derive(Clone, Copy, PartialEq, Eq, Debug)]
pub enum WriteFault {
    NoMemory,
    /// The sink failed.
    Failed,
}

impl From<NoMemory> for WriteFault {
    ghost from_gives = { λ _ e. e ≡ fault.NoMemory };

    fn from(_fault: NoMemory) -> WriteFault {
        WriteFault::NoMemory
    }
}

impl From<Failed> for WriteFault {
    ghost from_gives = { λ _ e. e ≡ fault.Failed };

    fn from(_failed: Failed) -> WriteFault {
        WriteFault::Failed
    }
}
