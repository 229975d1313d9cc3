// A disk as a saved point sees it: what a read gives, and what a crash may leave at each moment of its calls.
ghost use Rattle.std.specs.Prelude.{◌≡◌, ◌+◌, ◌<◌, ◌≤◌, ℕ, List, length, OnOk, OnErr};
ghost use Rattle.disk_model.specs.declared.disk.DiskStop.TheVariants.{NoMemory};
ghost use Rattle.disk_model.specs.Disk.{Image, part, Holds, Moment, MayLeave, settled, loosened, History, after, GoesOn, HasCause};

use std::alloc::{AllocError, AllocFailed};

#[derive(Clone, Copy, Debug, PartialEq, Eq)]
pub enum DiskStop {
    NoMemory,
    Failed,
}

impl From<AllocError> for DiskStop {
    ghost from_gives = { λ _ stop. stop ≡ NoMemory };

    fn from(_: AllocError) -> Self {
        DiskStop::NoMemory
    }
}

impl<T: Drop> From<AllocFailed<T>> for DiskStop {
    ghost from_gives = { λ _ stop. stop ≡ NoMemory };

    fn from(_: AllocFailed<T>) -> Self {
        DiskStop::NoMemory
    }
}

pub trait Disk {
    /// How many bytes there are.
    ghost extent: { Self → ℕ };

    /// The bytes that a read gives.
    ghost seen: { Self → Image };

    /// What a crash may leave, at this moment and at each one before.
    ghost history: { Self → History };

    /// How often the disk has failed.
    ghost faults: { Self → ℕ };

    /// The disk keeps to the model.
    ghost is_honest: { Self → Type 0 };

    fn size(&self) -> u64
        ensures { result ≡ extent self.now };

    /// Fills the buffer with the bytes from a place on.
    fn read(&mut self, at: u64, buf: &mut [u8]) -> Result<(), DiskStop>
        requires { at + length buf.old ≤ extent self.old }
        ensures extent { extent self.new ≡ extent self.old }
        ensures cause { HasCause (faults self.old) (faults self.new) result }
        ensures honest { is_honest self.old → is_honest self.new }
        ensures bytes { is_honest self.old → OnOk result (buf.new ≡ part (seen self.old) at (length buf.old)) }
        ensures seen { is_honest self.old → seen self.new ≡ seen self.old }
        ensures crash { is_honest self.old → GoesOn (history self.old) (history self.old).now (history self.new) };

    /// Writes bytes from a place on. Until the next sync a crash may leave any bytes there, also after an error.
    fn write(&mut self, at: u64, bytes: &[u8]) -> Result<(), DiskStop>
        requires { at + length bytes.now ≤ extent self.old }
        ensures extent { extent self.new ≡ extent self.old }
        ensures cause { HasCause (faults self.old) (faults self.new) result }
        ensures honest { is_honest self.old → is_honest self.new }
        ensures written { is_honest self.old → OnOk result (Holds (seen self.old) at bytes.now (seen self.new)) }
        ensures crash { is_honest self.old → GoesOn (history self.old) (loosened at (length bytes.now) (history self.old).now) (history self.new) };

    /// After it a crash leaves what a read gives.
    fn sync(&mut self) -> Result<(), DiskStop>
        ensures extent { extent self.new ≡ extent self.old }
        ensures cause { HasCause (faults self.old) (faults self.new) result }
        ensures honest { is_honest self.old → is_honest self.new }
        ensures seen { is_honest self.old → OnOk result (seen self.new ≡ seen self.old) }
        ensures synced { is_honest self.old → OnOk result (history self.new ≡ after (settled (seen self.old)) (history self.old)) }
        ensures crash { is_honest self.old → OnErr result (GoesOn (history self.old) (history self.old).now (history self.new)) };

    /// What a read gives is one of the images that a crash may leave.
    ghost stays: { (disk : Self) → is_honest disk → MayLeave (history disk).now (seen disk) };
}
