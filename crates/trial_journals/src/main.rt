//! The journal of a script's one-thread run: `trial_journals < SCRIPT` writes the canonical script, and that
//! journal behind it, which `borealis replay` runs again.
#![tactic(auto)]

use diagram_printer::print_script;
use diagram_reader::faults::ScriptFault;
use diagram_reader::read_script;
use dpc_lists::faults::NoMemory;
use journal_text::print_journal;
use lockstep::faults::RunFault;
use lockstep::lock::run;
use std::alloc::Global;
use std::io::{Read, Write};
use std::process::ExitCode;

/// Why no journal was written; each has the exit status that `borealis` would end with.
#[derive(Clone, Copy)]
enum Trouble {
    NoMemory,
    Refused,
    Unread,
    Unwritten,
    TooLong,
}

impl Trouble {
    fn code(self) -> u8 {
        match self {
            Trouble::Refused => 2,
            Trouble::NoMemory => 3,
            Trouble::Unread => 5,
            Trouble::Unwritten => 6,
            Trouble::TooLong => 7,
        }
    }
}

impl From<NoMemory> for Trouble {
    fn from(_fault: NoMemory) -> Trouble {
        Trouble::NoMemory
    }
}

impl From<ScriptFault> for Trouble {
    fn from(fault: ScriptFault) -> Trouble {
        match fault {
            ScriptFault::NoMemory => Trouble::NoMemory,
            ScriptFault::Refused(_) => Trouble::Refused,
        }
    }
}

impl From<RunFault> for Trouble {
    fn from(fault: RunFault) -> Trouble {
        match fault {
            RunFault::NoMemory => Trouble::NoMemory,
            RunFault::TooLong { .. } => Trouble::TooLong,
        }
    }
}

/// A script, and the journal of its one-thread run.
fn journaled(alloc: Global, text: &[u8]) -> Result<Vec<u8>, Trouble> {
    let script = read_script(alloc, text)?;
    let mut both = print_script(alloc, &script)?;
    let world = run(alloc, script)?;
    let mut journal = print_journal(alloc, world.plan(), world.journal(), true)?;
    let Ok(()) = both.append(&mut journal) else {
        return Err(Trouble::NoMemory);
    };
    Ok(both)
}

/// Reads the script, and writes both.
fn answer(rt: &HostRuntime) -> Result<(), Trouble> {
    let alloc = rt.alloc();
    let mut text = Vec::new(alloc);
    let Ok(_) = rt.stdin().read_to_end(&mut text) else {
        return Err(Trouble::Unread);
    };
    let both = journaled(alloc, text.as_slice())?;
    let Ok(()) = rt.stdout().write_all(both.as_slice()) else {
        return Err(Trouble::Unwritten);
    };
    Ok(())
}

fn main(rt: HostRuntime) -> ExitCode {
    match answer(&rt) {
        Ok(()) => ExitCode::SUCCESS,
        Err(trouble) => ExitCode::from(trouble.code()),
    }
}
