//! What is to be written of a script that several threads run.
ghost use Rattle.std.specs.Prelude.{◌≡◌, ℕ, ◌≤◌, ◌<◌, ◌^◌, ◌&&◌, not, false, length, vec_len, IfOk, IfErr, OnOk};
ghost use Rattle.dpc_model.specs.Limits.{most_input};
ghost use Rattle.dpc_model.specs.declared.scripts.Script as scripts;
ghost use Rattle.law_fit.specs.Fits.{CanRun};
ghost use Rattle.world_model.specs.Worlds.{all_settled};
ghost use Rattle.world_core.specs.Runs.{world_of};
ghost use Rattle.node_threads.specs.Lives.{IsPast, IsStopped};
ghost use Rattle.live_watch.specs.Watches.{IsWatchedRun};
ghost use Rattle.live_commands.specs.Endings.{Ending, CanEnd, IsEnding, IsFew, EndsSo, IsToldOf, readers_of, journal_and_report, whole_text, journal_upto};

use crate::beside::Beside;
use crate::outcome::Outcome;
use crate::watching::put_all_watched;
use client_views::watched::Watched;
use diagram_reader::faults::ScriptFault;
use diagram_reader::read_script;
use dpc_edge::gate::Gate;
use dpc_lists::faults::NoMemory;
use dpc_model::messages::Event;
use dpc_model::scripts::Script;
use frame_lists::writing::journal_frames;
use input_parts::notation::Notation;
use journal_commands::{framed_report, report};
use journal_text::print_journal;
use live_watch::live::live_watch;
use node_threads::faults::LiveFault;
use node_threads::live::live;
use node_threads::pooled::live_by_pool;
use node_threads::stop::Stop;
use status_lines::{fault_line, too_long_line};
use std::alloc::Global;
use std::sync::Wait;
use std::thread::Threads;
use world_core::world::World;

/// More events than any list of them has.
const NO_SUCH_LENGTH: usize = 1 << 62;

/// What a run by so many workers, with those who are beside them, of the script in an input of at most 64 MiB comes to,
/// told in lines or in frames; behind it stand the lines on what readers saw, if there are any.
/// The input is let go before the run. It may wait, so its promise holds if it returns.
pub fn answer<R: Threads + Wait + Sync, G: Gate + Sync>(
    rt: &R,
    alloc: Global,
    notation: Notation,
    input: Vec<u8>,
    workers: u64,
    beside: Beside,
    gate: &G,
) -> Result<Outcome, NoMemory>
    requires long { vec_len input ≤ most_input }
    requires some { 1 ≤ workers }
    requires few { workers ≤ 16 }
    requires beside { IsFew beside }
    ensures { IfOk result (λ outcome. (ending : Ending) × CanEnd (readers_of beside) input.items ending × IsEnding notation ending outcome) }
{
    let script = read_script(alloc, input.as_slice());
    drop(input);
    match script {
        Ok(script) => run_answer(rt, alloc, notation, script, workers, beside, gate),
        Err(why) => match why {
            ScriptFault::NoMemory => Err(NoMemory),
            ScriptFault::Refused(fault) => Ok(Outcome::Refused(fault_line(alloc, fault)?)),
        },
    }
}

/// Runs a script by so many workers, with those who are beside them: the world, and what readers saw.
fn run_by<R: Threads + Wait + Sync, G: Gate + Sync>(
    rt: &R,
    alloc: Global,
    script: Script,
    workers: u64,
    beside: Beside,
    gate: &G,
) -> Result<(World, Vec<Watched>), LiveFault>
    requires can { CanRun script.plan }
    requires some { 1 ≤ workers }
    requires few { workers ≤ 16 }
    requires beside { IsFew beside }
    ensures ok { IfOk result (λ r. IsWatchedRun script (readers_of beside) r.0 r.1.items) }
    ensures long { IfErr result (IsPast script) }
{
    match beside {
        Beside::Nobody => {
            let world = live(rt, alloc, script, workers, gate)?;
            Ok((world, Vec::new(alloc)))
        }
        Beside::Millers(millers) => {
            let world = live_by_pool(rt, alloc, script, workers, millers, gate)?;
            Ok((world, Vec::new(alloc)))
        }
        Beside::Readers(readers) => live_watch(rt, alloc, script, workers, readers, gate),
    }
}

/// What a run of a script by so many threads comes to.
fn run_answer<R: Threads + Wait + Sync, G: Gate + Sync>(
    rt: &R,
    alloc: Global,
    notation: Notation,
    script: Script,
    workers: u64,
    beside: Beside,
    gate: &G,
) -> Result<Outcome, NoMemory>
    requires can { CanRun script.plan }
    requires some { 1 ≤ workers }
    requires few { workers ≤ 16 }
    requires beside { IsFew beside }
    ensures { IfOk result (EndsSo notation (readers_of beside) script) }
{
    let settle = script.settle;
    match run_by(rt, alloc, script, workers, beside, gate) {
        Ok((world, watched)) => {
            world_answer(alloc, notation, settle, &world, watched.as_slice())
        }
        Err(LiveFault::TooLong(world, stop)) => stopped_answer(alloc, notation, &world, stop),
        Err(LiveFault::NoMemory) => Err(NoMemory),
    }
}

/// The journal of a world, its report and what readers saw, and whether a client is left open behind `settle`.
fn world_answer(
    alloc: Global,
    notation: Notation,
    settle: bool,
    world: &World,
    watched: &[Watched],
) -> Result<Outcome, NoMemory>
    requires live { world.now.spent ≡ false }
    requires run { CanRun world.now.plan }
    ensures short { OnOk result (length world.now.events < 2 ^ 62) }
    ensures told { IfOk result (IsToldOf (settle && not (all_settled (world_of world.now)))
        (whole_text notation world.now.plan world.now.events watched.now)) }
{
    if world.journal().len() >= NO_SUCH_LENGTH {
        return Err(NoMemory);
    }
    let mut text = journal_and_report(alloc, notation, world)?;
    put_all_watched(&mut text, world.plan(), watched)?;
    if settle && !world.settled() {
        Ok(Outcome::Open(text))
    } else {
        Ok(Outcome::Text(text))
    }
}

/// The journal of a world, and its report.
fn journal_and_report(alloc: Global, notation: Notation, world: &World) -> Result<Vec<u8>, NoMemory>
    requires live { world.now.spent ≡ false }
    requires run { CanRun world.now.plan }
    ensures { IfOk result (λ text. text.items ≡ journal_and_report notation world.now.plan world.now.events) }
{
    match notation {
        Notation::Lines => {
            let mut text = print_journal(alloc, world.plan(), world.journal(), true)?;
            text.append(&mut report(alloc, world)?)?;
            Ok(text)
        }
        Notation::Frames => {
            let mut bytes = journal_frames(alloc, world.journal())?;
            bytes.append(&mut framed_report(alloc, world)?)?;
            Ok(bytes)
        }
    }
}

/// The journal of a world up to an event that would pass a limit, and the line that says so.
fn stopped_answer(
    alloc: Global,
    notation: Notation,
    world: &World,
    stop: Stop,
) -> Result<Outcome, NoMemory>
    ensures { IfOk result (λ outcome. (readers : ℕ) (script : scripts.Script) → IsStopped script world.now stop → EndsSo notation readers script outcome) }
{
    let entries = entries_upto(alloc, notation, world, stop.event)?;
    let line = too_long_line(alloc, stop.envelopes, stop.items)?;
    Ok(Outcome::TooLong { entries, line })
}

/// The journal of a world and an event behind it, without its end.
fn entries_upto(
    alloc: Global,
    notation: Notation,
    world: &World,
    last: Event,
) -> Result<Vec<u8>, NoMemory>
    ensures { IfOk result (λ text. text.items ≡ journal_upto notation world.now.plan world.now.events last) }
{
    let mut events = world.journal().to_vec(alloc)?;
    events.push(last)?;
    match notation {
        Notation::Lines => print_journal(alloc, world.plan(), events.as_slice(), false),
        Notation::Frames => journal_frames(alloc, events.as_slice()),
    }
}
