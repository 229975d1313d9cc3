//! Why bytes are no frame.
use dpc_lists::faults::NoMemory;
use std::alloc::AllocError;

/// Why no frame was read.
#[derive(Clone, Copy, PartialEq, Eq, Debug)]
pub enum DecodeFault {
    NoMemory,
    /// The frame goes on behind the last byte.
    Short,
    /// The first byte is no kind.
    BadKind(u8),
    /// A frame of that kind has never this length.
    BadLength(u64),
    /// The first field that is out of its range stands at this place of the frame.
    BadValue(u64),
}

impl From<NoMemory> for DecodeFault {
    ghost use Rattle.std.specs.Prelude.{◌≡◌};
    ghost use Rattle.stream_codec.specs.declared.faults.DecodeFault.TheVariants as fault;

    ghost from_gives = { λ _ e. e ≡ fault.NoMemory };

    fn from(_fault: NoMemory) -> DecodeFault {
        DecodeFault::NoMemory
    }
}

impl From<AllocError> for DecodeFault {
    ghost use Rattle.std.specs.Prelude.{◌≡◌};
    ghost use Rattle.stream_codec.specs.declared.faults.DecodeFault.TheVariants as fault;

    ghost from_gives = { λ _ e. e ≡ fault.NoMemory };

    fn from(_fault: AllocError) -> DecodeFault {
        DecodeFault::NoMemory
    }
}
