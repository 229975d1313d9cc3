//! What is to be written of a script and what stands behind it.
ghost use Rattle.std.specs.Prelude.{◌≡◌, ◌≤◌, ◌&&◌, ℕ, List, Result, not, vec_len, false, IfOk};
ghost use Rattle.law_fit.specs.Fits.{CanRun};
ghost use Rattle.journal_inputs.specs.Inputs.{IsInput, IsText};
ghost use Rattle.journal_inputs.specs.declared.faults.Refusal as refused;
ghost use Rattle.client_frames.specs.Framed.{report_frames};
ghost use Rattle.report.specs.Text.{report_text};
ghost use Rattle.world_model.specs.Worlds.{all_settled};
ghost use Rattle.world_model.specs.Replays.{replay_end};
ghost use Rattle.world_core.specs.Runs.{world_of};
ghost use Rattle.journal_commands.specs.Endings.{most_journal_input, IsEnding, ending_of, input_in, line_of, replayed, replay_ending, text_ending, told_or_open};

use crate::outcome::{JournalCommand, Outcome};
use client_frames::report_frames;
use client_reports::text::report_text;
use dpc_lists::faults::NoMemory;
use dpc_model::messages::Event;
use dpc_model::scripts::Script;
use input_parts::notation::Notation;
use journal_inputs::faults::{InputFault, Refusal};
use journal_inputs::{read_both, read_framed, upgrade_text};
use journal_replay::faults::ReplayFault;
use journal_replay::replay;
use status_lines::{entry_line, fault_line, item_line, too_long_line};
use std::alloc::{AllocError, Global};
use stream_audits::audit_text;
use world_core::world::World;

/// The reason of an entry that may not come where it stands.
const MAY_NOT_COME: u64 = 2;

/// The reason of a journal that ends too early.
const UNFINISHED: u64 = 3;

/// What a command comes to on an input of at most 512 MiB: a script, and the journal or recorded stream behind it.
/// The input is let go before a journal's run.
pub fn answer(alloc: Global, command: JournalCommand, input: Vec<u8>) -> Result<Outcome, NoMemory>
    requires { vec_len input ≤ most_journal_input }
    ensures { IfOk result (IsEnding (ending_of command input.items)) }
{
    match command {
        JournalCommand::Replay(notation) => replay_answer(alloc, notation, input),
        JournalCommand::Upgrade => text_answer(alloc, upgrade_text(alloc, input.as_slice())),
        JournalCommand::Audit(notation) => {
            text_answer(alloc, audit_text(alloc, notation, input.as_slice()))
        }
    }
}

/// The line on a refusal of a script, or of the journal or recorded stream behind it.
pub fn refusal_line(alloc: Global, why: Refusal) -> Result<Vec<u8>, AllocError>
    ensures { IfOk result (λ line. line.items ≡ line_of why) }
{
    match why {
        Refusal::Script(fault) => fault_line(alloc, fault),
        Refusal::Journal(entry, reason) => entry_line(alloc, entry, reason),
        Refusal::Stream(item) => item_line(alloc, item),
    }
}

/// The text of an input, or the line on its refusal.
fn text_answer(alloc: Global, text: Result<Vec<u8>, InputFault>) -> Result<Outcome, NoMemory>
    ensures { (is : Result (List ℕ) refused.Refusal) → IsText is text → IfOk result (IsEnding (text_ending is)) }
{
    match text {
        Ok(text) => Ok(Outcome::Text(text)),
        Err(fault) => match fault {
            InputFault::NoMemory => Err(NoMemory),
            InputFault::Refused(why) => Ok(Outcome::Refused(refusal_line(alloc, why)?)),
        },
    }
}

/// The script and the journal of an input.
fn both_in(
    alloc: Global,
    notation: Notation,
    input: &[u8],
) -> Result<(Script, Vec<Event>), InputFault>
    ensures { IsInput (input_in notation input.now) result }
{
    match notation {
        Notation::Lines => read_both(alloc, input),
        Notation::Frames => read_framed(alloc, input),
    }
}

/// The report of the run of the journal behind a script, or the line on what is wrong with it.
fn replay_answer(alloc: Global, notation: Notation, input: Vec<u8>) -> Result<Outcome, NoMemory>
    ensures { IfOk result (IsEnding (replayed (input_in notation input.items))) }
{
    let both = both_in(alloc, notation, input.as_slice());
    drop(input);
    match both {
        Ok((script, events)) => run_answer(alloc, script, events.as_slice()),
        Err(InputFault::NoMemory) => Err(NoMemory),
        Err(InputFault::Refused(why)) => Ok(Outcome::Refused(refusal_line(alloc, why)?)),
    }
}

/// The report of a journal's run, or the line on what is wrong with it.
fn run_answer(alloc: Global, script: Script, events: &[Event]) -> Result<Outcome, NoMemory>
    requires { CanRun script.plan }
    ensures { IfOk result (IsEnding (replay_ending script events.now (replay_end script events.now))) }
{
    let settle = script.settle;
    match replay(alloc, script, events) {
        Ok(world) => world_answer(alloc, settle, &world),
        Err(ReplayFault::NoMemory) => Err(NoMemory),
        Err(ReplayFault::TooLong { envelopes, items }) => {
            Ok(Outcome::TooLong(too_long_line(alloc, envelopes, items)?))
        }
        Err(ReplayFault::Refused { entry }) => {
            Ok(Outcome::Refused(entry_line(alloc, entry, MAY_NOT_COME)?))
        }
        Err(ReplayFault::Unfinished) => {
            Ok(Outcome::Refused(entry_line(alloc, events.len() as u64, UNFINISHED)?))
        }
    }
}

/// The report of a world. The only error is want of memory.
pub fn report(alloc: Global, world: &World) -> Result<Vec<u8>, NoMemory>
    requires live { world.now.spent ≡ false }
    requires run { CanRun world.now.plan }
    ensures { IfOk result (λ text. text.items ≡ report_text (world_of world.now)) }
{
    report_text(alloc, world.plan(), world.clients())
}

/// The report of a world in frames. The only error is want of memory.
pub fn framed_report(alloc: Global, world: &World) -> Result<Vec<u8>, NoMemory>
    requires live { world.now.spent ≡ false }
    requires run { CanRun world.now.plan }
    ensures { IfOk result (λ bytes. bytes.items ≡ report_frames (world_of world.now)) }
{
    report_frames(alloc, world.clients())
}

/// A report, which leaves a client open or not.
fn told(report: Vec<u8>, is_open: bool) -> Outcome
    ensures { IsEnding (told_or_open is_open report.items) result }
{
    if is_open {
        Outcome::Open(report)
    } else {
        Outcome::Text(report)
    }
}

/// The report of a world, and whether a client is left open behind `settle`.
fn world_answer(alloc: Global, settle: bool, world: &World) -> Result<Outcome, NoMemory>
    requires live { world.now.spent ≡ false }
    requires run { CanRun world.now.plan }
    ensures { IfOk result (IsEnding (told_or_open (settle && not (all_settled (world_of world.now)))
        (report_text (world_of world.now)))) }
{
    let text = report(alloc, world)?;
    let is_open = settle && !world.settled();
    Ok(told(text, is_open))
}
