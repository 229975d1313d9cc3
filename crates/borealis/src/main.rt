//! The program: its words, the standard streams, and the exit status.
#![tactic(auto)]

use borealis_top::program::over_streams;
use std::process::ExitCode;

fn main(rt: HostRuntime) -> ExitCode {
    over_streams(&rt, rt.stdin(), rt.stdout(), rt.stderr())
}
