//! The program at its edge: the words that it is given, the standard streams, and the exit status.
ghost use Rattle.std.specs.Process.{exit_status};
ghost use Rattle.borealis_top.specs.Programs.{ProgramEnds, StreamsEnd};

use crate::status::Status;
use crate::whole::borealis;
use dpc_edge::counted::Counted;
use dpc_edge::gate::OpenGate;
use dpc_edge::sink::Sink;
use dpc_edge::source::Source;
use dpc_lists::faults::NoMemory;
use std::alloc::AllocGlobal;
use std::env::{self, Env};
use std::io::{ErrorKind, Stderr, Stdin, Stdout};
use std::process::ExitCode;
use std::sync::Wait;
use std::thread::Threads;

/// The program over the standard streams.
pub fn over_streams<R: Env + AllocGlobal + Threads + Wait + Sync>(
    rt: &R,
    input: Stdin,
    out: Stdout,
    err: Stderr,
) -> ExitCode
    ensures { StreamsEnd (exit_status result) }
{
    let mut input = Counted::new(input);
    let mut out = Counted::new(out);
    let mut err = Counted::new(err);
    over(rt, &mut input, &mut out, &mut err)
}

/// Does what the words of the process say, and answers the exit status of how that ended.
pub fn over<R: Env + AllocGlobal + Threads + Wait + Sync, S: Source, O: Sink, E: Sink>(
    rt: &R,
    input: &mut S,
    out: &mut O,
    err: &mut E,
) -> ExitCode
    ensures { ProgramEnds (S.edge input.old) (S.edge input.new) (O.edge out.old) (O.edge out.new) (E.edge err.old)
        (E.edge err.new) (exit_status result) }
{
    let status = match words(rt) {
        Ok(words) => {
            let words = words.as_slice();
            borealis(rt, rt.alloc(), words, input, out, err, &OpenGate)
        }
        Err(NoMemory) => Status::NoMemory,
    };
    status.exit()
}

/// The words of the process, or none where they are no text.
fn words<R: Env + AllocGlobal>(rt: &R) -> Result<Vec<String>, NoMemory> {
    let mut words = Vec::new(rt.alloc());
    match env::args(rt) {
        Ok(arguments) => {
            for word in arguments.skip(1) {
                words.push(word)?;
            }
            Ok(words)
        }
        Err(fault) if fault.kind() == ErrorKind::OutOfMemory => Err(NoMemory),
        Err(_) => Ok(words),
    }
}
