//! Why a text is not read as a journal.
use dpc_lists::faults::NoMemory;

/// Why a text was not read as a journal.
#[derive(Clone, Copy, PartialEq, Eq, Debug)]
pub enum JournalFault {
    NoMemory,
    /// The number of entries in front of the refused line, and why it is refused: 1 where it is none that may stand
    /// there, 3 where the first line or the last one is missing, 4 where the count in the first line is another one.
    Refused { entry: u64, reason: u64 },
}

impl From<NoMemory> for JournalFault {
    ghost use Rattle.std.specs.Prelude.{◌≡◌};
    ghost use Rattle.journal_text.specs.declared.faults.JournalFault.TheVariants as fault;

    ghost from_gives = { λ _ e. e ≡ fault.NoMemory };

    fn from(_fault: NoMemory) -> JournalFault {
        JournalFault::NoMemory
    }
}
