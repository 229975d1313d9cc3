//! Why a recorded stream is not judged.
use dpc_lists::faults::NoMemory;
use std::alloc::AllocError;

/// Why there is no verdict.
#[derive(Clone, Copy, PartialEq, Eq, Debug)]
pub enum AuditFault {
    NoMemory,
    /// So many items stand before the first one that has no reading.
    NoReading(u64),
}

impl From<NoMemory> for AuditFault {
    ghost use Rattle.std.specs.Prelude.{◌≡◌};
    ghost use Rattle.audit_core.specs.declared.faults.AuditFault.TheVariants as fault;

    ghost from_gives = { λ _ e. e ≡ fault.NoMemory };

    fn from(_fault: NoMemory) -> AuditFault {
        AuditFault::NoMemory
    }
}

impl From<AllocError> for AuditFault {
    ghost use Rattle.std.specs.Prelude.{◌≡◌};
    ghost use Rattle.audit_core.specs.declared.faults.AuditFault.TheVariants as fault;

    ghost from_gives = { λ _ e. e ≡ fault.NoMemory };

    fn from(_fault: AllocError) -> AuditFault {
        AuditFault::NoMemory
    }
}
