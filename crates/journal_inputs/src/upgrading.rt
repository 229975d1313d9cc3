//! An input in its new form.
ghost use Rattle.std.specs.Prelude.{◌≡◌, IfOk, None};
ghost use Rattle.journal_inputs.specs.Inputs as spec;

use crate::faults::{InputFault, Refusal};
use crate::reading::{journal_in, script_in};
use diagram_printer::{print_script, upgrade};
use dpc_lists::faults::NoMemory;
use dpc_model::messages::Event;
use dpc_model::scripts::Script;
use input_parts::split_input;
use journal_text::print_journal;
use script_rules::reasons::{PlanFault, Reason};
use std::alloc::Global;

/// What a script of version 3 is refused with.
const NEWEST: PlanFault = PlanFault {
    line: 1,
    reason: Reason::OutOfRange,
};

/// The script that a text is, of version 1 or 2.
#[tactic(auto, using(crate::proofs::Refused::older_refused, crate::proofs::Refused::newest_refused, crate::proofs::Refused::older_read))]
fn older_script_in(alloc: Global, text: &[u8]) -> Result<Script, InputFault>
    ensures { spec.IsScript (spec.and_then (spec.script_in text.now) spec.older) result }
{
    match script_in(alloc, text) {
        Ok(script) => {
            if script.plan.version == 3 {
                Err(InputFault::Refused(Refusal::Script(NEWEST)))
            } else {
                Ok(script)
            }
        }
        Err(fault) => Err(fault),
    }
}

/// The text of an upgraded script, and of a journal with its end.
fn put_both(alloc: Global, script: Script, events: &[Event]) -> Result<Vec<u8>, NoMemory>
    ensures { IfOk result (λ text. text.items ≡ spec.upgraded_with script events.now) }
{
    let script = upgrade(script);
    let mut text = print_script(alloc, &script)?;
    text.append(&mut print_journal(alloc, &script.plan, events, true)?)?;
    Ok(text)
}

/// The text of an upgraded script and of the journal behind it.
#[tactic(auto, using(crate::proofs::Refused::behind_refused, crate::proofs::Refused::behind_read))]
fn upgraded_with(alloc: Global, script: Script, journal: &[u8]) -> Result<Vec<u8>, InputFault>
    ensures { spec.IsText (spec.upgraded_behind script journal.now) result }
{
    match journal_in(alloc, &script.plan, journal) {
        Ok(events) => Ok(put_both(alloc, script, events.as_slice())?),
        Err(fault) => Err(fault),
    }
}

/// The text of an upgraded script alone.
fn upgraded_alone(alloc: Global, script: Script) -> Result<Vec<u8>, InputFault>
    ensures { spec.IsText (spec.upgraded_parts None script) result }
{
    Ok(print_script(alloc, &upgrade(script))?)
}

/// The text of an input of version 1 or 2 in version 3: the canonical script, and the journal with its count where there was one.
/// It is refused as the script is, a script of version 3 at line 1 as out of range; where the script is read, as the journal is.
/// It is linear in the text; want of memory is the only other answer.
#[tactic(auto, using(crate::proofs::Refused::upgrade_refused, crate::proofs::Refused::upgrade_with_journal, crate::proofs::Refused::upgrade_without_journal))]
pub fn upgrade_text(alloc: Global, text: &[u8]) -> Result<Vec<u8>, InputFault>
    ensures { spec.IsText (spec.upgraded_text text.now) result }
{
    let (script, journal) = split_input(text, b"journal");
    let script = match older_script_in(alloc, script) {
        Ok(script) => script,
        Err(fault) => return Err(fault),
    };
    match journal {
        Some(journal) => upgraded_with(alloc, script, journal),
        None => upgraded_alone(alloc, script),
    }
}
