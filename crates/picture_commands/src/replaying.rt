//! What is to be written of the run of a journal as a picture.
ghost use Rattle.std.specs.Prelude.{◌≡◌, ◌≤◌, ◌&&◌, not, false, vec_len, IfOk};
ghost use Rattle.journal_commands.specs.Endings.{RefusedBy, most_journal_input, told_or_open, IsEnding};
ghost use Rattle.journal_inputs.specs.Inputs.{input_of};
ghost use Rattle.law_fit.specs.Fits.{CanRun};
ghost use Rattle.picture_commands.specs.Endings.{drawn_run};
ghost use Rattle.picture_commands.specs.Replays.{IsHalted, replay_ending, replayed, replay_picture_ending};
ghost use Rattle.status_lines.specs.Lines.{entry_line};
ghost use Rattle.picture_watch.specs.Seen.{HasDrawn};
ghost use Rattle.world_core.specs.Runs.{world_of};
ghost use Rattle.world_model.specs.Replays.{replay_end};
ghost use Rattle.world_model.specs.Worlds.{all_settled};

use crate::answering::{past_limits, run_text};
use crate::form::PictureForm;
use dpc_lists::faults::NoMemory;
use dpc_model::messages::Event;
use dpc_model::scripts::Script;
use journal_commands::outcome::Outcome;
use journal_commands::refusal_line;
use journal_inputs::faults::InputFault;
use journal_inputs::read_both;
use journal_replay::faults::ReplayFault;
use journal_replay::replay_watched;
use picture_watch::watch::Picturing;
use status_lines::entry_line;
use std::alloc::Global;
use world_core::world::World;

/// The reason of an entry that may not come where it stands.
const MAY_NOT_COME: u64 = 2;

/// The reason of a journal that ends too early.
const UNFINISHED: u64 = 3;

/// What `picture replay` comes to of the journal behind the script in an input of at most 512 MiB, in a form. The input is let
/// go before the run.
pub fn answer_replay(alloc: Global, form: PictureForm, input: Vec<u8>) -> Result<Outcome, NoMemory>
    requires { vec_len input ≤ most_journal_input }
    ensures { IfOk result (IsEnding (replay_picture_ending form input.items)) }
{
    journal_answer(alloc, form, input)
}

/// What it comes to of an input of any length.
fn journal_answer(alloc: Global, form: PictureForm, input: Vec<u8>) -> Result<Outcome, NoMemory>
    ensures { IfOk result (IsEnding (replayed form (input_of input.items))) }
{
    let both = read_both(alloc, input.as_slice());
    drop(input);
    match both {
        Ok((script, events)) => replay_answer(alloc, form, script, events.as_slice()),
        Err(InputFault::NoMemory) => Err(NoMemory),
        Err(InputFault::Refused(why)) => Ok(Outcome::Refused(refusal_line(alloc, why)?)),
    }
}

/// What it comes to of a script and its journal.
fn replay_answer(
    alloc: Global,
    form: PictureForm,
    script: Script,
    events: &[Event],
) -> Result<Outcome, NoMemory>
    requires { CanRun script.plan }
    ensures { IfOk result (IsEnding (replay_ending form script events.now (replay_end script events.now))) }
{
    let settle = script.settle;
    let mut picturing = Picturing::new(alloc, &script)?;
    match replay_watched(alloc, script, events, &mut picturing) {
        Ok(world) => world_answer(alloc, form, settle, &world, picturing),
        Err(fault) => stopped(alloc, events.len() as u64, fault),
    }
}

/// The line on a replay of so many entries that stopped, where that tells why.
fn stopped(alloc: Global, entries: u64, fault: ReplayFault) -> Result<Outcome, NoMemory>
    ensures { IfOk result (IsHalted entries fault) }
{
    match fault {
        ReplayFault::NoMemory => Err(NoMemory),
        ReplayFault::TooLong { envelopes, items } => past_limits(alloc, envelopes, items),
        ReplayFault::Refused { entry } => refused(alloc, entry, MAY_NOT_COME),
        ReplayFault::Unfinished => refused(alloc, entries, UNFINISHED),
    }
}

/// The line on an entry.
fn refused(alloc: Global, entry: u64, reason: u64) -> Result<Outcome, NoMemory>
    ensures { IfOk result (IsEnding (RefusedBy (entry_line entry reason))) }
{
    Ok(Outcome::Refused(entry_line(alloc, entry, reason)?))
}

/// A picture, which leaves a client open or not.
fn drawn(picture: Vec<u8>, is_open: bool) -> Outcome
    ensures { IsEnding (told_or_open is_open picture.items) result }
{
    if is_open {
        Outcome::Open(picture)
    } else {
        Outcome::Text(picture)
    }
}

/// The picture of a run that was watched, and whether a client is left open behind `settle`.
fn world_answer(
    alloc: Global,
    form: PictureForm,
    settle: bool,
    world: &World,
    picturing: Picturing,
) -> Result<Outcome, NoMemory>
    requires fresh { world.now.spent ≡ false }
    requires seen { HasDrawn world.now picturing }
    ensures { IfOk result (IsEnding (told_or_open (settle && not (all_settled (world_of world.now)))
        (drawn_run form picturing.losses.items world.now.plan world.now.events))) }
{
    let picture = run_text(alloc, form, world, picturing)?;
    let is_open = settle && !world.settled();
    Ok(drawn(picture, is_open))
}
