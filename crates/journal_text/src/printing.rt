//! The text of a journal.
ghost use Rattle.std.specs.Prelude.{◌≡◌, ◌∷◌, [], ◌++◌, OnOk, IfOk, map, codes, decimal};
ghost use Rattle.dpc_model.specs.Words.{line_of, text_of};
ghost use Rattle.dpc_model.specs.ScriptText.{actor_name};
ghost use Rattle.journal_text.specs.Entries.{entry_words};
ghost use Rattle.journal_text.specs.Journals.{first_words, last_words, last_lines, journal_text};

use diagram_printer::names::put_actor;
use dpc_lists::faults::NoMemory;
use dpc_model::messages::Event;
use dpc_model::plans::Plan;
use line_writer::{end_line, put_first, put_number, put_word};
use std::alloc::Global;

/// A line of a word and a number.
fn put_numbered(text: &mut Vec<u8>, word: &[u8], number: u64) -> Result<(), NoMemory>
    ensures { OnOk result (text.new.items ≡ text.old.items ++ line_of (word.now ∷ decimal number ∷ [])) }
{
    put_first(text, word)?;
    put_number(text, number)?;
    end_line(text)
}

/// A line of a word and an actor.
fn put_named(text: &mut Vec<u8>, plan: &Plan, word: &[u8], actor: u32) -> Result<(), NoMemory>
    ensures { OnOk result (text.new.items ≡ text.old.items ++ line_of (word.now ∷ actor_name plan.now actor ∷ [])) }
{
    put_first(text, word)?;
    put_actor(text, plan, u64::from(actor))?;
    end_line(text)
}

/// A line of a word, an actor and a number.
fn put_told(
    text: &mut Vec<u8>,
    plan: &Plan,
    word: &[u8],
    actor: u32,
    number: u64,
) -> Result<(), NoMemory>
    ensures { OnOk result (text.new.items
        ≡ text.old.items ++ line_of (word.now ∷ actor_name plan.now actor ∷ decimal number ∷ [])) }
{
    put_first(text, word)?;
    put_actor(text, plan, u64::from(actor))?;
    put_number(text, number)?;
    end_line(text)
}

/// A line of a word and two actors.
fn put_link(
    text: &mut Vec<u8>,
    plan: &Plan,
    word: &[u8],
    from: u32,
    to: u32,
) -> Result<(), NoMemory>
    ensures { OnOk result (text.new.items
        ≡ text.old.items ++ line_of (word.now ∷ actor_name plan.now from ∷ actor_name plan.now to ∷ [])) }
{
    put_first(text, word)?;
    put_actor(text, plan, u64::from(from))?;
    put_actor(text, plan, u64::from(to))?;
    end_line(text)
}

/// The line of an entry.
fn put_entry(text: &mut Vec<u8>, plan: &Plan, event: Event) -> Result<(), NoMemory>
    ensures { OnOk result (text.new.items ≡ text.old.items ++ line_of (entry_words plan.now event)) }
{
    match event {
        Event::Phase(phase) => put_numbered(text, b"phase", phase),
        Event::Emit(source, time) => put_told(text, plan, b"emit", source, time),
        Event::Release(source, time) => put_told(text, plan, b"release", source, time),
        Event::Cut(from, to) => put_link(text, plan, b"cut", from, to),
        Event::Heal(from, to) => put_link(text, plan, b"heal", from, to),
        Event::Crash(node) => put_named(text, plan, b"crash", node),
        Event::Restart(node, incarnation) => put_told(text, plan, b"restart", node, incarnation),
        Event::Deliver(envelope) => put_numbered(text, b"deliver", envelope),
        Event::Tick(actor, now) => put_told(text, plan, b"tick", actor, now),
        Event::Mill(node, buckets) => put_told(text, plan, b"mill", node, buckets),
    }
}

/// The lines of entries.
fn put_entries(text: &mut Vec<u8>, plan: &Plan, events: &[Event]) -> Result<(), NoMemory>
    ensures { OnOk result (text.new.items ≡ text.old.items ++ text_of (map (entry_words plan.now) events.now)) }
{
    for event in events {
        put_entry(text, plan, *event)?;
    }
    Ok(())
}

/// The first line.
fn put_opening(text: &mut Vec<u8>, plan: &Plan, entries: u64) -> Result<(), NoMemory>
    ensures { OnOk result (text.new.items ≡ text.old.items ++ line_of (first_words plan.now entries)) }
{
    put_first(text, b"journal")?;
    if plan.version == 3 {
        put_word(text, b"3")?;
        put_number(text, entries)?;
    }
    end_line(text)
}

/// The last line.
fn put_end(text: &mut Vec<u8>, ended: bool) -> Result<(), NoMemory>
    ensures { OnOk result (text.new.items ≡ text.old.items ++ text_of (last_lines ended)) }
{
    if !ended {
        return Ok(());
    }
    put_first(text, b"journal")?;
    put_word(text, b"end")?;
    end_line(text)
}

/// The text of a journal: the first line, a line for each entry, and the last line where the journal has ended. It is
/// linear in the text; the only error is want of memory.
pub fn print_journal(
    alloc: Global,
    plan: &Plan,
    events: &[Event],
    ended: bool,
) -> Result<Vec<u8>, NoMemory>
    ensures { IfOk result (λ text. text.items ≡ journal_text plan.now events.now ended) }
{
    let mut text = Vec::new(alloc);
    put_opening(&mut text, plan, events.len() as u64)?;
    put_entries(&mut text, plan, events)?;
    put_end(&mut text, ended)?;
    Ok(text)
}
