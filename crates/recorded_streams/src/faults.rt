//! Why a text is no recorded stream.
use std::alloc::AllocError;

/// Why a recorded stream was not read.
#[derive(Clone, Copy, PartialEq, Eq, Debug)]
pub enum StreamFault {
    NoMemory,
    /// So many items stand in front of the first place where there is none that may stand there.
    NoItem(u64),
}

impl From<AllocError> for StreamFault {
    ghost use Rattle.std.specs.Prelude.{◌≡◌};
    ghost use Rattle.recorded_streams.specs.declared.faults.StreamFault.TheVariants as fault;

    ghost from_gives = { λ _ e. e ≡ fault.NoMemory };

    fn from(_fault: AllocError) -> StreamFault {
        StreamFault::NoMemory
    }
}
