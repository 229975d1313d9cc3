//! All commands: those that wait for nobody, and a run by several threads.
ghost use Rattle.std.specs.Prelude.{map, string_bytes};
ghost use Rattle.borealis_top.specs.Commands.{command_of, live_of, pair_of};
ghost use Rattle.borealis_top.specs.Programs.{WordsEnd};

use crate::command::live_in;
use crate::live::run_live;
use crate::plain::plain;
use crate::status::Status;
use dpc_edge::gate::Gate;
use dpc_edge::sink::Sink;
use dpc_edge::source::Source;
use std::alloc::Global;
use std::sync::Wait;
use std::thread::Threads;

/// Does what the words say, over any input and any sinks for the text and for one line on what is wrong. A run by
/// several threads calls the gate where its workers stand. It may wait, so its promise holds if it returns.
pub fn borealis<R: Threads + Wait + Sync, S: Source, O: Sink, E: Sink, G: Gate + Sync>(
    rt: &R,
    alloc: Global,
    words: &[String],
    input: &mut S,
    out: &mut O,
    err: &mut E,
    gate: &G,
) -> Status
    ensures { WordsEnd (live_of (map string_bytes words.now)) (pair_of (map string_bytes words.now)) (command_of (map string_bytes words.now))
        (S.edge input.old) (S.edge input.new) (O.edge out.old) (O.edge out.new) (E.edge err.old) (E.edge err.new) result }
{
    match live_in(words) {
        Some(command) => run_live(rt, alloc, command, input, out, err, gate),
        None => plain(alloc, words, input, out, err),
    }
}
