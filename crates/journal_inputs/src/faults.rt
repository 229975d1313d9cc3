//! Why an input is refused.
use dpc_lists::faults::NoMemory;
use script_rules::reasons::PlanFault;

/// Why an input is not what it has to be.
#[derive(Clone, Copy, PartialEq, Eq, Debug)]
pub enum Refusal {
    /// The first faulty line of the script, and the least reason there.
    Script(PlanFault),
    /// The number of entries in front of the journal's refused line, and the reason.
    Journal(u64, u64),
    /// The number of items in front of the first place of a recorded stream where none may stand, or has a reading.
    Stream(u64),
}

/// Why an input was not taken.
#[derive(Clone, Copy, PartialEq, Eq, Debug)]
pub enum InputFault {
    NoMemory,
    Refused(Refusal),
}

impl From<NoMemory> for InputFault {
    ghost use Rattle.std.specs.Prelude.{◌≡◌};
    ghost use Rattle.journal_inputs.specs.declared.faults.InputFault.TheVariants as fault;

    ghost from_gives = { λ _ e. e ≡ fault.NoMemory };

    fn from(_fault: NoMemory) -> InputFault {
        InputFault::NoMemory
    }
}
