//! The command that runs a script by several threads.
ghost use Rattle.std.specs.Prelude.{◌≤◌, IfOk, IfErr};
ghost use Rattle.live_commands.specs.Endings.{Ending, IsEnding, IsFew};
ghost use Rattle.borealis_top.specs.declared.command.LiveCommand as commands;
ghost use Rattle.borealis_top.specs.LiveEnds.{IsLiveOutcome, LiveFailsSo, IsLiveTold, LiveEnds, LiveIsWhole};

use crate::command::LiveCommand;
use crate::plain::{TOO_LONG, told, told_both, told_open};
use crate::status::Status;
use crate::transfer::{InputFault, MOST_INPUT, read_whole};
use dpc_edge::gate::Gate;
use dpc_edge::sink::Sink;
use dpc_edge::source::Source;
use live_commands::answer;
use live_commands::outcome::Outcome;
use status_lines::fault_line;
use std::alloc::Global;
use std::sync::Wait;
use std::thread::Threads;

/// Reads a whole input, and tells what a run of it by so many threads comes to.
fn outcome_of<R: Threads + Wait + Sync, S: Source, G: Gate + Sync>(
    rt: &R,
    alloc: Global,
    command: LiveCommand,
    input: &mut S,
    gate: &G,
) -> Result<Outcome, InputFault>
    requires some { 1 ≤ command.workers }
    requires few { command.workers ≤ 16 }
    requires beside { IsFew command.beside }
    ensures ok { IfOk result (IsLiveOutcome command (S.edge input.old) (S.edge input.new)) }
    ensures err { IfErr result (LiveFailsSo (S.edge input.old) (S.edge input.new)) }
{
    match read_whole(alloc, input, MOST_INPUT) {
        Ok(text) => match answer(
            rt,
            alloc,
            command.notation,
            text,
            command.workers,
            command.beside,
            gate,
        ) {
            Ok(outcome) => Ok(outcome),
            Err(_) => Err(InputFault::NoMemory),
        },
        Err(InputFault::TooLong) => match fault_line(alloc, TOO_LONG) {
            Ok(line) => Ok(Outcome::Refused(line)),
            Err(_) => Err(InputFault::NoMemory),
        },
        Err(InputFault::NoMemory) => Err(InputFault::NoMemory),
        Err(InputFault::Failed) => Err(InputFault::Failed),
    }
}

/// Writes what a run comes to.
fn tell<O: Sink, E: Sink>(out: &mut O, err: &mut E, outcome: Outcome) -> Status
    ensures { (asked : commands.LiveCommand) (ending : Ending) → IsEnding asked.notation ending outcome
        → IsLiveTold asked ending (O.edge out.old) (O.edge out.new) (E.edge err.old) (E.edge err.new) result }
{
    match outcome {
        Outcome::Text(text) => told(out, text.as_slice(), Status::Done),
        Outcome::Open(text) => told_open(out, err, text.as_slice()),
        Outcome::TooLong { entries, line } => told_both(
            out,
            err,
            entries.as_slice(),
            line.as_slice(),
            Status::TooLong,
        ),
        Outcome::Refused(line) => told(err, line.as_slice(), Status::Refused),
    }
}

/// Reads a script, runs it by so many threads, and writes the journal of that run, its report, and what readers saw.
pub(crate) fn run_live<R: Threads + Wait + Sync, S: Source, O: Sink, E: Sink, G: Gate + Sync>(
    rt: &R,
    alloc: Global,
    command: LiveCommand,
    input: &mut S,
    out: &mut O,
    err: &mut E,
    gate: &G,
) -> Status
    requires some { 1 ≤ command.workers }
    requires few { command.workers ≤ 16 }
    requires beside { IsFew command.beside }
    ensures ends { LiveEnds command (S.edge input.old) (S.edge input.new) (O.edge out.old) (O.edge out.new)
        (E.edge err.old) (E.edge err.new) result }
    ensures complete { LiveIsWhole command (S.edge input.old) (S.edge input.new) (O.edge out.old) (O.edge out.new)
        (E.edge err.old) (E.edge err.new) result }
{
    match outcome_of(rt, alloc, command, input, gate) {
        Ok(outcome) => tell(out, err, outcome),
        Err(InputFault::Failed) => Status::ReadFault,
        Err(_) => Status::NoMemory,
    }
}
