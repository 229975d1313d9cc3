//! The journal that a text is.
ghost use Rattle.std.specs.Prelude.{◌≡◌, length};
ghost use Rattle.script_rules.specs.Lines.{pieces};
ghost use Rattle.script_words.specs.Cursors.{lines_left};
ghost use Rattle.journal_text.specs.Journals as spec;
ghost use Rattle.journal_text.specs.declared.faults.JournalFault.TheVariants.{Refused};

use crate::entries::entry_of;
use crate::faults::JournalFault;
use crate::lines::{cut, is};
use dpc_model::messages::Event;
use dpc_model::plans::Plan;
use script_words::lines::Lines;
use script_words::spelling::number;
use std::alloc::Global;

/// How many entries the first line of version 3 tells.
fn counted(line: &[u8]) -> Option<u64>
    ensures { result ≡ spec.counted (pieces 32 line.now) }
{
    let words = cut(line)?;
    let count = words.third?;
    if is(words.first, b"journal") && is(words.second, b"3") {
        number(count)
    } else {
        None
    }
}

/// What a right first line tells of the number of entries: nothing, but in version 3.
fn opened(plan: &Plan, line: &[u8]) -> Option<Option<u64>>
    ensures { result ≡ spec.opened plan.now line.now }
{
    if plan.version == 3 {
        counted(line).map(|count| Some(count))
    } else if is(line, b"journal") {
        Some(None)
    } else {
        None
    }
}

/// Whether there are as many entries as the first line told.
fn is_right(count: Option<u64>, entries: u64) -> bool
    ensures { result ≡ spec.is_right count entries }
{
    match count {
        None => true,
        Some(count) => count == entries,
    }
}

/// A text is refused at the line behind these entries.
fn refused(events: &[Event], reason: u64) -> JournalFault
    ensures { result ≡ Refused (length events.now) reason }
{
    JournalFault::Refused {
        entry: events.len() as u64,
        reason,
    }
}

/// The entries, where no line stands behind the last one, and they are as many as the first line told.
fn concluded(
    count: Option<u64>,
    events: Vec<Event>,
    mut lines: Lines<'_>,
) -> Result<Vec<Event>, JournalFault>
    ensures { spec.IsReading (spec.concluded count events.items (lines_left lines.entry)) result }
{
    if lines.next().is_some() {
        return Err(refused(events.as_slice(), 1));
    }
    if !is_right(count, events.len() as u64) {
        return Err(refused(events.as_slice(), 4));
    }
    Ok(events)
}

/// The journal that a text is for a plan, or its refusal: the number of entries in front of the refused line, and the
/// reason. It is linear in the text, and takes memory for the events alone.
pub fn read_journal(alloc: Global, plan: &Plan, text: &[u8]) -> Result<Vec<Event>, JournalFault>
    ensures { spec.IsReading (spec.journal_of plan.now text.now) result }
{
    let mut events = Vec::new(alloc);
    let mut lines = Lines::of(text);
    let Some(first) = lines.next() else {
        return Err(refused(&[], 3));
    };
    let Some(count) = opened(plan, first) else {
        return Err(refused(&[], 1));
    };
    while let Some(line) = lines.next() {
        if is(line, b"journal end") {
            return concluded(count, events, lines);
        }
        let Some(event) = entry_of(plan, line)? else {
            return Err(refused(events.as_slice(), 1));
        };
        let Ok(()) = events.push(event) else {
            return Err(JournalFault::NoMemory);
        };
    }
    Err(refused(events.as_slice(), 3))
}
