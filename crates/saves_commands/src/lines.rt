//! A line for each node.
ghost use Rattle.std.specs.Prelude.{◌≡◌, ◌++◌, length, decimal, OnOk, IfOk};
ghost use Rattle.line_writer.specs.Spaces.{behind_spaces};
ghost use Rattle.dpc_model.specs.ScriptText.{actor_name};
ghost use Rattle.dpc_model.specs.Words.{line_of};
ghost use Rattle.saves_commands.specs.Lines.{counted_words, saved_words, saved_line, saves_text};

use diagram_printer::names::put_actor;
use dpc_lists::faults::NoMemory;
use dpc_model::plans::Plan;
use line_writer::{end_line, put_first, put_number, put_word};
use saved_runs::saved::Saved;
use std::alloc::Global;

/// A word and a number.
fn put_counted(text: &mut Vec<u8>, word: &[u8], number: u64) -> Result<(), NoMemory>
    ensures { OnOk result (text.new.items ≡ text.old.items ++ behind_spaces (counted_words word.now number)) }
{
    put_word(text, word)?;
    put_number(text, number)?;
    Ok(())
}

/// What a node has saved, behind its name.
fn put_saved(text: &mut Vec<u8>, saved: Saved) -> Result<(), NoMemory>
    ensures { OnOk result (text.new.items ≡ text.old.items ++ behind_spaces (saved_words saved)) }
{
    match saved {
        Saved::Never => put_word(text, b"none")?,
        Saved::Full => put_word(text, b"full")?,
        Saved::Point { cursor, base, kept } => {
            put_counted(text, b"cursor", cursor)?;
            put_counted(text, b"base", base)?;
            put_counted(text, b"kept", kept)?;
        }
    }
    Ok(())
}

/// The line of a node.
fn put_line(text: &mut Vec<u8>, plan: &Plan, actor: u64, saved: Saved) -> Result<(), NoMemory>
    ensures { OnOk result (text.new.items ≡ text.old.items ++ line_of (saved_line plan.now actor saved)) }
{
    put_first(text, b"saved")?;
    put_actor(text, plan, actor)?;
    put_saved(text, saved)?;
    end_line(text)?;
    Ok(())
}

/// The lines of all nodes in order.
pub(crate) fn saves_text(alloc: Global, plan: &Plan, told: &[Saved]) -> Result<Vec<u8>, NoMemory>
    ensures { IfOk result (λ text. text.items ≡ saves_text plan.now told.now) }
{
    let mut text = Vec::new(alloc);
    let mut actor = plan.sources.len() as u64;
    for saved in told {
        put_line(&mut text, plan, actor, *saved)?;
        actor = actor.checked_add(1).ok_or(NoMemory)?;
    }
    Ok(text)
}
