//! What readers saw, in lines.
ghost use Rattle.std.specs.Prelude.{◌≡◌, ◌++◌, OnOk};
ghost use Rattle.dpc_model.specs.Words.{line_of};
ghost use Rattle.live_commands.specs.Watching.{name_of, watched_words, watched_text};

use client_views::watched::Watched;
use dpc_lists::faults::NoMemory;
use dpc_model::plans::Plan;
use line_writer::{end_line, put_first, put_number, put_word};

/// The name of a client.
fn name_of(plan: &Plan, client: u64) -> &[u8]
    ensures { result.now ≡ name_of plan.now client }
{
    match plan.clients.as_slice().get(client as usize) {
        Some(client) => client.name.as_slice(),
        None => b"",
    }
}

/// Adds the line on what a reader saw of a client.
fn put_watched(text: &mut Vec<u8>, plan: &Plan, watched: &Watched) -> Result<(), NoMemory>
    ensures { OnOk result (text.new.items ≡ text.old.items ++ line_of (watched_words plan.now watched.now)) }
{
    put_first(text, b"watch")?;
    put_number(text, watched.reader)?;
    put_word(text, name_of(plan, watched.client))?;
    put_word(text, b"stable")?;
    put_number(text, watched.count)?;
    put_word(text, b"bound")?;
    put_number(text, watched.bound)?;
    end_line(text)
}

/// Adds a line on each.
pub(crate) fn put_all_watched(
    text: &mut Vec<u8>,
    plan: &Plan,
    watched: &[Watched],
) -> Result<(), NoMemory>
    ensures { OnOk result (text.new.items ≡ text.old.items ++ watched_text plan.now watched.now) }
{
    for one in watched {
        put_watched(text, plan, one)?;
    }
    Ok(())
}
