//! Why a journal has no run.
ghost use Rattle.std.specs.Prelude.{◌≡◌};
ghost use Rattle.journal_replay.specs.declared.faults.ReplayFault.TheVariants as replay_fault;

use dpc_lists::faults::NoMemory;

#[derive(Clone, Copy, PartialEq, Eq, Debug)]
pub enum ReplayFault {
    NoMemory,
    /// An event would make more envelopes, or items in them, than a run may have: so many.
    TooLong { envelopes: u64, items: u64 },
    /// So many entries happened, and the next one may not come where it stands.
    Refused { entry: u64 },
    /// All entries happened, and the run is not at its end.
    Unfinished,
}

impl From<NoMemory> for ReplayFault {
    ghost from_gives = { λ _ fault. fault ≡ replay_fault.NoMemory };

    fn from(_fault: NoMemory) -> ReplayFault {
        ReplayFault::NoMemory
    }
}
