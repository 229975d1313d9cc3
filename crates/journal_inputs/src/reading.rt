//! A script, and the journal behind it.
ghost use Rattle.std.specs.Prelude.{◌≡◌};
ghost use Rattle.journal_inputs.specs.Inputs as spec;

use crate::faults::{InputFault, Refusal};
use diagram_reader::faults::ScriptFault;
use diagram_reader::read_script;
use dpc_model::messages::Event;
use dpc_model::plans::Plan;
use dpc_model::scripts::Script;
use input_parts::split_input;
use journal_text::faults::JournalFault;
use journal_text::read_journal;
use std::alloc::Global;

/// The script that a text is.
pub fn script_in(alloc: Global, text: &[u8]) -> Result<Script, InputFault>
    ensures { spec.IsScript (spec.script_in text.now) result }
{
    match read_script(alloc, text) {
        Ok(script) => Ok(script),
        Err(ScriptFault::NoMemory) => Err(InputFault::NoMemory),
        Err(ScriptFault::Refused(fault)) => Err(InputFault::Refused(Refusal::Script(fault))),
    }
}

/// The journal that a text is.
pub fn journal_in(alloc: Global, plan: &Plan, text: &[u8]) -> Result<Vec<Event>, InputFault>
    ensures { spec.IsJournal (spec.journal_in plan.now text.now) result }
{
    match read_journal(alloc, plan, text) {
        Ok(events) => Ok(events),
        Err(JournalFault::NoMemory) => Err(InputFault::NoMemory),
        Err(JournalFault::Refused { entry, reason }) => {
            Err(InputFault::Refused(Refusal::Journal(entry, reason)))
        }
    }
}

/// A script, and the journal behind it.
#[tactic(auto, using(crate::proofs::Refused::journal_refused, crate::proofs::Refused::journal_read))]
fn with_journal(
    alloc: Global,
    script: Script,
    journal: &[u8],
) -> Result<(Script, Vec<Event>), InputFault>
    ensures { spec.IsInput (spec.with_journal script (spec.journal_in script.plan journal.now)) result }
{
    match journal_in(alloc, &script.plan, journal) {
        Ok(events) => Ok((script, events)),
        Err(fault) => Err(fault),
    }
}

/// Reads an input: its script, and the events of the journal behind it, for the plan of that script. It is refused as the script
/// is; where the script is read, as the journal is, which is refused behind no entry with reason 3 where there is none. It is
/// linear in the text, and takes memory for the script and the events alone.
#[tactic(auto, using(crate::proofs::Refused::input_refused, crate::proofs::Refused::input_with_journal, crate::proofs::Refused::input_without_journal))]
pub fn read_both(alloc: Global, text: &[u8]) -> Result<(Script, Vec<Event>), InputFault>
    ensures { spec.IsInput (spec.input_of text.now) result }
{
    let (script, journal) = split_input(text, b"journal");
    match script_in(alloc, script) {
        Ok(script) => match journal {
            Some(journal) => with_journal(alloc, script, journal),
            None => with_journal(alloc, script, &[]),
        },
        Err(fault) => Err(fault),
    }
}
