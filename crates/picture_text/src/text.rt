//! The whole text.
ghost use Rattle.std.specs.Prelude.{◌≡◌, ◌++◌, ◌∷◌, [], map, flat_map, length, IfOk, OnOk};
ghost use Rattle.dpc_lists.specs.Lists.{range_with_len};
ghost use Rattle.dpc_model.specs.ScriptText.{actor_name, client_name};
ghost use Rattle.dpc_model.specs.Words.{spaced, line_of, text_of};
ghost use Rattle.line_writer.specs.Spaces.{behind_spaces};
ghost use Rattle.report.specs.Text.{settled_word};
ghost use Rattle.picture_text.specs.Text.{are_settled, all_settled, title_words, told_words, mark_words, mark_lines, summary_at, summary_line, summary_lines, last_column, legend_lines, picture_text};

use crate::labels::labels_of;
use crate::panels::put_panels;
use crate::strips::{client_point, strips_of};
use diagram_printer::names::put_actor;
use dpc_lists::faults::NoMemory;
use dpc_model::plans::Plan;
use line_writer::{end_line, put_first, put_number, put_word};
use picture_model::columns::{ClientPoint, Column, Mark};
use report::text::{Summary, put_summary};
use std::alloc::Global;

/// The clients at the end; none where there is no phase.
pub fn last_clients(columns: &[Column]) -> &[ClientPoint]
    ensures { result.now ≡ (last_column columns.now).clients }
{
    match columns.last() {
        Some(column) => column.clients.as_slice(),
        None => &[],
    }
}

/// Whether all these clients are settled.
fn are_settled(clients: &[ClientPoint]) -> bool
    ensures { result ≡ are_settled clients.now }
{
    clients.iter().all(|client| client.settled)
}

/// Whether there is a phase, and every client is settled at the end.
fn all_settled(columns: &[Column]) -> bool
    ensures { result ≡ all_settled columns.now }
{
    match columns.last() {
        Some(column) => are_settled(column.clients.as_slice()),
        None => false,
    }
}

/// Whether all is settled, as a word behind a space.
fn put_settled(text: &mut Vec<u8>, settled: bool) -> Result<(), NoMemory>
    ensures { OnOk result (text.new.items ≡ text.old.items ++ behind_spaces (settled_word settled ∷ [])) }
{
    if settled {
        put_word(text, b"settled")
    } else {
        put_word(text, b"open")
    }
}

/// The words of the first line.
pub fn put_title_words(text: &mut Vec<u8>, columns: &[Column]) -> Result<(), NoMemory>
    ensures { OnOk result (text.new.items ≡ text.old.items ++ spaced (title_words columns.now)) }
{
    put_first(text, b"phases")?;
    put_number(text, columns.len() as u64)?;
    put_settled(text, all_settled(columns))
}

/// The first line.
fn put_title(text: &mut Vec<u8>, columns: &[Column]) -> Result<(), NoMemory>
    ensures { OnOk result (text.new.items ≡ text.old.items ++ line_of (title_words columns.now)) }
{
    put_title_words(text, columns)?;
    end_line(text)?;
    Ok(())
}

/// A word and an actor, each behind a space.
fn put_named(text: &mut Vec<u8>, plan: &Plan, word: &[u8], actor: u64) -> Result<(), NoMemory>
    ensures { OnOk result (text.new.items ≡ text.old.items ++ behind_spaces (word.now ∷ actor_name plan.now actor ∷ [])) }
{
    put_word(text, word)?;
    put_actor(text, plan, actor)
}

/// A word and two actors, each behind a space.
fn put_pair(
    text: &mut Vec<u8>,
    plan: &Plan,
    word: &[u8],
    from: u64,
    to: u64,
) -> Result<(), NoMemory>
    ensures { OnOk result (text.new.items
        ≡ text.old.items ++ behind_spaces (word.now ∷ actor_name plan.now from ∷ actor_name plan.now to ∷ [])) }
{
    put_named(text, plan, word, from)?;
    put_actor(text, plan, to)
}

/// What happened, each word behind a space.
fn put_told(text: &mut Vec<u8>, plan: &Plan, mark: Mark) -> Result<(), NoMemory>
    ensures { OnOk result (text.new.items ≡ text.old.items ++ behind_spaces (told_words plan.now mark)) }
{
    match mark {
        Mark::Cut(from, to) => put_pair(text, plan, b"cut", from, to),
        Mark::Heal(from, to) => put_pair(text, plan, b"heal", from, to),
        Mark::Lose(from, to) => put_pair(text, plan, b"lose", from, to),
        Mark::Repeat(from, to) => put_pair(text, plan, b"repeat", from, to),
        Mark::Crash(node) => put_named(text, plan, b"crash", node),
        Mark::Restart(node, incarnation) => {
            put_named(text, plan, b"restart", node)?;
            put_number(text, incarnation)
        }
        Mark::Grant(replica, asker) => put_pair(text, plan, b"grant", replica, asker),
    }
}

/// The line of a mark: the phase and the clock of its column, and what happened.
pub fn put_mark(
    text: &mut Vec<u8>,
    plan: &Plan,
    column: &Column,
    mark: Mark,
) -> Result<(), NoMemory>
    ensures { OnOk result (text.new.items ≡ text.old.items ++ line_of (mark_words plan.now column.now mark)) }
{
    put_first(text, b"phase")?;
    put_number(text, column.number)?;
    put_word(text, b"clock")?;
    put_number(text, column.clock)?;
    put_told(text, plan, mark)?;
    end_line(text)?;
    Ok(())
}

/// The lines of a phase's marks.
fn put_marks(text: &mut Vec<u8>, plan: &Plan, column: &Column) -> Result<(), NoMemory>
    ensures { OnOk result (text.new.items ≡ text.old.items ++ text_of (mark_lines plan.now column.now)) }
{
    for mark in column.marks.as_slice() {
        put_mark(text, plan, column, *mark)?;
    }
    Ok(())
}

/// The lines of all marks.
fn put_all_marks(text: &mut Vec<u8>, plan: &Plan, columns: &[Column]) -> Result<(), NoMemory>
    ensures { OnOk result (text.new.items ≡ text.old.items ++ text_of (flat_map (mark_lines plan.now) columns.now)) }
{
    for column in columns {
        put_marks(text, plan, column)?;
    }
    Ok(())
}

/// What the summary of a client tells.
fn summary_at(client: ClientPoint) -> Summary
    ensures { result ≡ summary_at client }
{
    Summary {
        stable: client.stable,
        bound: client.bound,
        tentative: client.tentative,
        settled: client.settled,
    }
}

/// The name of a client, and no byte where there is none.
pub fn client_name(plan: &Plan, client: usize) -> &[u8]
    ensures { result.now ≡ client_name plan.now client }
{
    match plan.clients.as_slice().get(client) {
        Some(client) => client.name.as_slice(),
        None => &[],
    }
}

/// The summary of a client.
fn put_summary_of(
    text: &mut Vec<u8>,
    plan: &Plan,
    clients: &[ClientPoint],
    client: usize,
) -> Result<(), NoMemory>
    ensures { OnOk result (text.new.items ≡ text.old.items ++ line_of (summary_line plan.now clients.now client)) }
{
    let summary = summary_at(client_point(clients, client));
    put_summary(text, client_name(plan, client), &summary)
}

/// The summaries of all clients.
pub fn put_summaries(
    text: &mut Vec<u8>,
    plan: &Plan,
    clients: &[ClientPoint],
) -> Result<(), NoMemory>
    ensures { OnOk result (text.new.items ≡ text.old.items ++ text_of (summary_lines plan.now clients.now)) }
{
    for client in 0..clients.len() {
        put_summary_of(text, plan, clients, client)?;
    }
    Ok(())
}

/// A line of these bytes.
fn put_line(text: &mut Vec<u8>, line: &[u8]) -> Result<(), NoMemory>
    ensures { OnOk result (text.new.items ≡ text.old.items ++ line_of (line.now ∷ [])) }
{
    put_first(text, line)?;
    end_line(text)
}

/// What the letters mean.
fn put_legend(text: &mut Vec<u8>) -> Result<(), NoMemory>
    ensures { OnOk result (text.new.items ≡ text.old.items ++ text_of legend_lines) }
{
    put_line(
        text,
        b"sources: r released, e emitted, - released to the end",
    )?;
    put_line(text, b"links: how many are cut, # ten or more")?;
    put_line(
        text,
        b"replicas: . STABLE, U UP_FAILURE, C STABILIZATION, R recovering, x down",
    )?;
    put_line(
        text,
        b"clients: + more is final, ~ tentative held, u undo, d rec_done, * both, = settled",
    )?;
    put_line(
        text,
        b"reads: the number of the replica; a colon: phases like the three before it",
    )?;
    Ok(())
}

/// The picture of a run of this plan: how many phases there were and whether every client is settled, panels of rows
/// with a letter for each phase, what happened in them, each client's summary, and what the letters mean.
/// The only error is want of memory.
pub fn picture_text(alloc: Global, plan: &Plan, columns: &[Column]) -> Result<Vec<u8>, NoMemory>
    ensures { IfOk result (λ text. text.items ≡ picture_text plan.now columns.now) }
{
    let labels = labels_of(alloc, plan)?;
    let strips = strips_of(alloc, plan.end, columns)?;
    let mut text = Vec::new(alloc);
    put_title(&mut text, columns)?;
    put_panels(&mut text, labels.as_slice(), strips.as_slice())?;
    end_line(&mut text)?;
    put_all_marks(&mut text, plan, columns)?;
    put_summaries(&mut text, plan, last_clients(columns))?;
    put_legend(&mut text)?;
    Ok(text)
}
