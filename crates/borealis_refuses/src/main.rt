//! The program again, run on a script that it refuses: it writes nothing to standard output, one
//! line to standard error, and ends with status 2.
#![tactic(auto)]

use borealis_top::program::over_streams;
use std::process::ExitCode;

fn main(rt: HostRuntime) -> ExitCode {
    over_streams(&rt, rt.stdin(), rt.stdout(), rt.stderr())
}
