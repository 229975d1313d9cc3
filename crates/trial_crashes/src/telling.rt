//! The lines that are told.
use crate::breaking::Breaks;
use crate::judging::Tally;
use crate::outages::Outcomes;
use diagram_printer::names::put_actor;
use dpc_lists::faults::NoMemory;
use dpc_model::plans::Plan;
use line_writer::{end_line, put_first, put_number, put_word};
use std::alloc::Global;

/// A word, and a number.
fn put_count(line: &mut Vec<u8>, word: &str, count: u64) -> Result<(), NoMemory> {
    put_word(line, word.as_bytes())?;
    put_number(line, count)
}

/// What was found of clients.
fn put_tally(line: &mut Vec<u8>, tally: &Tally) -> Result<(), NoMemory> {
    put_count(line, "whole", tally.whole)?;
    put_count(line, "beginnings", tally.beginnings)?;
    put_count(line, "others", tally.others)?;
    put_count(line, "tuples", tally.tuples)
}

/// What was found of crashes behind each event, under a word.
fn put_breaks(line: &mut Vec<u8>, word: &str, breaks: &Breaks) -> Result<(), NoMemory> {
    put_word(line, word.as_bytes())?;
    put_tally(line, &breaks.tally)?;
    put_count(line, "left_out", breaks.left_out)?;
    if let Some(first) = breaks.first {
        put_count(line, "first", first as u64)?;
    }
    Ok(())
}

/// The line of a script and a node: what is found where that stays down, and where it restarts at once.
pub(crate) fn breaks_line(
    alloc: Global,
    name: &str,
    plan: &Plan,
    node: u32,
    stays: &Breaks,
    restarts: &Breaks,
) -> Result<Vec<u8>, NoMemory> {
    let mut line = Vec::new(alloc);
    put_first(&mut line, name.as_bytes())?;
    put_actor(&mut line, plan, u64::from(node))?;
    put_breaks(&mut line, "down", stays)?;
    put_breaks(&mut line, "restarted", restarts)?;
    end_line(&mut line)?;
    Ok(line)
}

/// The line of a script with outages put in, under a word.
pub(crate) fn outcomes_line(
    alloc: Global,
    name: &str,
    word: &str,
    outcomes: &Outcomes,
) -> Result<Vec<u8>, NoMemory> {
    let mut line = Vec::new(alloc);
    put_first(&mut line, name.as_bytes())?;
    put_count(&mut line, word, outcomes.runs)?;
    put_count(&mut line, "settled", outcomes.settled)?;
    put_tally(&mut line, &outcomes.tally)?;
    end_line(&mut line)?;
    Ok(line)
}
