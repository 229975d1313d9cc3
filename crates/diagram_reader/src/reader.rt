//! The reader of scripts.
ghost use Rattle.std.specs.Prelude.{◌≡◌, ◌<◌, ◌^◌, ◌+◌, length, Some};
ghost use Rattle.script_rules.specs.Drafts as spec;
ghost use Rattle.script_words.specs.Cursors.{words_left};
ghost use Rattle.script_words.specs.Limits.{HasLimits};
ghost use Rattle.diagram_reader.specs.Readings.{IsReadingOf, IsLineOf, IsWordsOf, IsKeyword};

use crate::faults::{LineFault, ScriptFault};
use crate::statements::said;
use dpc_model::scripts::Script;
use script_draft::draft::Draft;
use script_rules::keywords::Keyword;
use script_rules::reasons::{PlanFault, Reason};
use script_words::keywords::keyword_of;
use script_words::lines::{Lines, has_foreign_byte, is_skipped};
use script_words::places::{Limits, fault_of_words};
use script_words::words::Words;
use std::alloc::Global;

/// The longest script, in bytes: 64 MiB.
const MOST_BYTES: usize = 1 << 26;

/// What the places of the next line depend on.
fn limits_of(draft: &Draft) -> Limits
    ensures limits { HasLimits draft.now result }
    ensures end { spec.end_of draft.now < 2 ^ 64 }
{
    Limits {
        wide: draft.is_wide(),
        width: draft.width_of(),
        end: draft.end_of(),
    }
}

/// The words behind a keyword, taken into the script under way.
fn read_words(
    alloc: Global,
    draft: &mut Draft,
    keyword: Keyword,
    words: Words<'_>,
) -> Result<(), LineFault>
    requires { IsKeyword keyword }
    ensures { IsWordsOf draft.old draft.new keyword (words_left words.entry) result }
{
    let limits = limits_of(draft);
    if let Some(reason) = fault_of_words(&limits, keyword, words) {
        return Err(LineFault::Refused(reason));
    }
    if !draft.is_its_part(keyword) {
        return Err(LineFault::Refused(Reason::OutOfPart));
    }
    said(alloc, draft, keyword, words)
}

/// One more line.
fn read_line(alloc: Global, draft: &mut Draft, line: &[u8]) -> Result<(), LineFault>
    ensures { IsLineOf draft.old draft.new line.now result }
{
    if has_foreign_byte(line) {
        return Err(LineFault::Refused(Reason::ForeignByte));
    }
    if is_skipped(line) {
        return Ok(());
    }
    let mut words = Words::of(line);
    let first = words.word(0);
    words.skip(1);
    match keyword_of(draft.version_of(), first) {
        Some(keyword) => read_words(alloc, draft, keyword, words),
        None => Err(LineFault::Refused(Reason::ForeignWord)),
    }
}

/// A text of at most the longest script, line by line.
fn read_lines(alloc: Global, text: &[u8]) -> Result<Script, ScriptFault>
    requires { length text.now < 2 ^ 26 + 1 }
    ensures { IsReadingOf text.now result }
{
    let mut draft = Draft::new(alloc);
    let mut lines = Lines::of(text);
    let mut number: u64 = 1;
    while let Some(line) = lines.next() {
        match read_line(alloc, &mut draft, line) {
            Ok(()) => number += 1,
            Err(LineFault::NoMemory) => return Err(ScriptFault::NoMemory),
            Err(LineFault::Refused(reason)) => {
                return Err(ScriptFault::Refused(PlanFault {
                    line: number,
                    reason,
                }));
            }
        }
    }
    match draft.fault_of_end() {
        Some(reason) => Err(ScriptFault::Refused(PlanFault {
            line: number,
            reason,
        })),
        None => Ok(draft.into_script()),
    }
}

/// Reads a text as a script, all of it: the script that it is, or its first faulty line and the least
/// reason that applies to that line; a text that is longer than the longest is past a limit, at line 0. It is linear in the
/// text.
pub fn read_script(alloc: Global, text: &[u8]) -> Result<Script, ScriptFault>
    ensures { IsReadingOf text.now result }
{
    if text.len() > MOST_BYTES {
        return Err(ScriptFault::Refused(PlanFault {
            line: 0,
            reason: Reason::PastLimit,
        }));
    }
    read_lines(alloc, text)
}
