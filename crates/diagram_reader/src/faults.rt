//! Why a text or a line is refused.
use dpc_lists::faults::NoMemory;
use script_rules::reasons::{PlanFault, Reason};

/// Why a text was not read as a script.
#[derive(Clone, Copy, PartialEq, Eq, Debug)]
pub enum ScriptFault {
    NoMemory,
    /// The first faulty line, from 1, and the least reason that applies to it; line 0 where the text is
    /// longer than the longest.
    Refused(PlanFault),
}

/// Why a line was not taken.
#[derive(Clone, Copy, PartialEq, Eq, Debug)]
pub enum LineFault {
    NoMemory,
    /// The least reason that applies to it.
    Refused(Reason),
}

impl From<NoMemory> for LineFault {
    ghost use Rattle.std.specs.Prelude.{◌≡◌};
    ghost use Rattle.diagram_reader.specs.declared.faults.LineFault.TheVariants as fault;

    ghost from_gives = { λ _ e. e ≡ fault.NoMemory };

    fn from(_fault: NoMemory) -> LineFault {
        LineFault::NoMemory
    }
}
