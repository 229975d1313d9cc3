//! What no clause says of runs whose nodes crash: that they come to anything. Of four scripts each node crashes behind
//! each event of the one-thread run, and stays down or restarts at once; and of one of them the replicas crash and
//! restart at the beginning of phases. Writes a line on each.
#![tactic(auto)]

mod breaking;
mod happening;
mod judging;
mod outages;
mod pairs;
mod reading;
mod scripts;
mod telling;
mod trouble;

use crate::breaking::break_everywhere;
use crate::pairs::{Pairing, all_outages, try_pairs, try_short};
use crate::reading::{journal_in, script_in};
use crate::scripts::{BOTH_ASK, CHAIN, Named, PASSING, TWO_CUTS};
use crate::telling::{breaks_line, outcomes_line};
use crate::trouble::Trouble;
use dpc_model::actors::{Role, role_of};
use dpc_model::plans::Plan;
use std::alloc::{AllocError, Global};
use std::io::Write;
use std::process::ExitCode;

/// More actors than a plan may have: 16 sources, 4 replicas of 16 fragments, 16 clients.
const MOST_ACTORS: u32 = 97;

/// The phases at whose beginning nodes crash and restart: all of the script's own.
const PHASES: usize = 6;

/// Writes a line.
fn write(rt: &HostRuntime, line: &[u8]) -> Result<(), Trouble> {
    rt.stdout().write_all(line)?;
    Ok(())
}

/// The nodes of a plan, by their actors' numbers.
fn nodes_of(alloc: Global, plan: &Plan) -> Result<Vec<u32>, AllocError> {
    let mut nodes = Vec::new(alloc);
    for actor in 0..MOST_ACTORS {
        if let Role::Node(_, _) = role_of(plan, u64::from(actor)) {
            nodes.push(actor)?;
        }
    }
    Ok(nodes)
}

/// Breaks each node of a script behind each event.
fn tell_breaks(rt: &HostRuntime, named: Named) -> Result<(), Trouble> {
    let alloc = rt.alloc();
    let script = script_in(alloc, named.text)?;
    let plan = &script.plan;
    let journal = journal_in(alloc, named.text)?;
    for node in nodes_of(alloc, plan)? {
        let stays = break_everywhere(alloc, plan, &journal, node, false)?;
        let restarts = break_everywhere(alloc, plan, &journal, node, true)?;
        let line = breaks_line(alloc, named.name, plan, node, &stays, &restarts)?;
        write(rt, &line)?;
    }
    Ok(())
}

/// Puts outages of its nodes into a script.
fn tell_outages(rt: &HostRuntime, named: Named) -> Result<(), Trouble> {
    let alloc = rt.alloc();
    let script = script_in(alloc, named.text)?;
    let nodes = nodes_of(alloc, &script.plan)?;
    let outages = all_outages(alloc, &nodes, PHASES)?;
    let short = try_short(alloc, &script, &outages)?;
    write(rt, &outcomes_line(alloc, named.name, "one_outage", &short)?)?;
    for (word, wanted) in [
        ("two_of_one", Pairing::OfOne),
        ("two_in_turn", Pairing::OfTwoInTurn),
        ("two_at_once", Pairing::OfTwoAtOnce),
    ] {
        let outcomes = try_pairs(alloc, &script, &outages, wanted)?;
        write(rt, &outcomes_line(alloc, named.name, word, &outcomes)?)?;
    }
    Ok(())
}

/// Writes all lines.
fn tell(rt: &HostRuntime) -> Result<(), Trouble> {
    for named in [BOTH_ASK, PASSING, CHAIN, TWO_CUTS] {
        tell_breaks(rt, named)?;
    }
    tell_outages(rt, BOTH_ASK)
}

fn main(rt: HostRuntime) -> ExitCode {
    match tell(&rt) {
        Ok(()) => ExitCode::SUCCESS,
        Err(trouble) => ExitCode::from(trouble.code()),
    }
}
