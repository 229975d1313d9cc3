//! A script, and the journal in frames behind it.
ghost use Rattle.std.specs.Prelude.{◌≡◌};
ghost use Rattle.journal_inputs.specs.Inputs as spec;
ghost use Rattle.journal_inputs.specs.Framed as framed;
ghost use Rattle.journal_inputs.specs.declared.faults.InputFault.TheVariants as fault;
ghost use Rattle.journal_inputs.specs.declared.faults.Refusal.TheVariants as refusal;

use crate::faults::{InputFault, Refusal};
use crate::reading::script_in;
use dpc_model::messages::Event;
use dpc_model::scripts::Script;
use frame_lists::faults::ListFault;
use frame_lists::reading::read_frames;
use frame_lists::sorts::Entries;
use input_parts::{first_line, split_input};
use std::alloc::Global;

/// A frame that is none of an entry stands where one has to.
const NO_ENTRY: u64 = 1;

/// The first line is not there.
const NO_JOURNAL: u64 = 3;

/// A refusal of the journal.
fn refused(entry: u64, reason: u64) -> InputFault
    ensures { result ≡ fault.Refused (refusal.Journal entry reason) }
{
    InputFault::Refused(Refusal::Journal(entry, reason))
}

/// The journal that a line and the frames behind it are.
fn journal_in_frames(alloc: Global, bytes: &[u8]) -> Result<Vec<Event>, InputFault>
    ensures { spec.IsJournal (spec.journal_or_refusal (framed.journal_in_frames bytes.now)) result }
{
    let (line, frames) = first_line(bytes);
    if line != b"frames".as_slice() {
        return Err(refused(0, NO_ENTRY));
    }
    match read_frames(alloc, &Entries, frames) {
        Ok(events) => Ok(events),
        Err(ListFault::NoMemory) => Err(InputFault::NoMemory),
        Err(ListFault::NoFrame(count)) => Err(refused(count, NO_ENTRY)),
    }
}

/// A script, and the journal in the frames behind it.
#[tactic(auto, using(crate::proofs::FramedParts::behind_refused_by, crate::proofs::FramedParts::behind_read_as))]
fn with_frames(
    alloc: Global,
    script: Script,
    bytes: &[u8],
) -> Result<(Script, Vec<Event>), InputFault>
    ensures { spec.IsInput (spec.with_journal script (spec.journal_or_refusal (framed.journal_in_frames bytes.now))) result }
{
    match journal_in_frames(alloc, bytes) {
        Ok(events) => Ok((script, events)),
        Err(fault) => Err(fault),
    }
}

/// Reads an input: its script, and the entries in the frames behind the line `frames`, to the end of the input. It is refused as the
/// script is; where the script is read, behind no entry with reason 3 where no line begins with that word, with reason 1 where that
/// line goes on, and with reason 1 behind the entries before the first place where no frame of an entry stands. It is one pass, and
/// takes memory for the script and the events alone.
#[tactic(auto, using(crate::proofs::FramedParts::framed_refused, crate::proofs::FramedParts::framed_with_journal, crate::proofs::FramedParts::framed_without_journal))]
pub fn read_framed(alloc: Global, bytes: &[u8]) -> Result<(Script, Vec<Event>), InputFault>
    ensures { spec.IsInput (framed.framed_input_of bytes.now) result }
{
    let (script, journal) = split_input(bytes, b"frames");
    match script_in(alloc, script) {
        Ok(script) => match journal {
            Some(journal) => with_frames(alloc, script, journal),
            None => Err(refused(0, NO_JOURNAL)),
        },
        Err(fault) => Err(fault),
    }
}
