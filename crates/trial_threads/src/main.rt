//! What no clause says of a run by several threads: that two workers, or two millers of a pool, or a worker and a reader,
//! are at work at the same time, that orders go through the pool, that a look does not wait for the run's lock, and what
//! work is whose node crashed meanwhile. Writes a line on each.
#![tactic(auto)]

mod meeting;
mod pooled;
mod stale;
mod watched;

use crate::meeting::{Meetings, meet_often};
use crate::pooled::taken_through;
use crate::stale::crashed_meanwhile;
use crate::watched::{looks_beside_lock, watch_often};
use live_commands::beside::Beside;
use std::process::ExitCode;

/// How often the two nodes have to meet.
const ROUNDS: u64 = 10;

/// What is to be told of some meetings.
fn met(told: Meetings) -> &'static str {
    match told {
        Meetings::All => "they met each time, and each run was whole",
        Meetings::Missed => "they missed one another",
        Meetings::Broken => "a run had another status or report",
    }
}

fn main(rt: HostRuntime) -> ExitCode {
    let two = meet_often(&rt, rt.alloc(), 2, Beside::Nobody, ROUNDS);
    let one = meet_often(&rt, rt.alloc(), 1, Beside::Nobody, 1);
    let pool = meet_often(&rt, rt.alloc(), 1, Beside::Millers(2), ROUNDS);
    let taken = match taken_through(&rt, rt.alloc()) {
        Some(taken) if taken >= 2 => "two or more",
        Some(_) => "fewer than two",
        None => "the run was not whole",
    };
    let watched = watch_often(&rt, rt.alloc(), ROUNDS);
    let looks = match looks_beside_lock(&rt, rt.alloc()) {
        Some(true) => "it returned",
        Some(false) => "it did not return meanwhile",
        None => "there was no memory",
    };
    let stale = crashed_meanwhile(rt.alloc());
    let stale = match stale {
        Some(true) => "its node is up",
        Some(false) => "stale, its node is down",
        None => "no work, or not stale",
    };
    let first = println!(rt; "two workers, two nodes: {}", met(two));
    let second = println!(rt; "one worker, two nodes: {}", met(one));
    let third = println!(rt; "work whose node crashed: {stale}");
    let fourth = println!(rt; "one worker and two millers: {}", met(pool));
    let fifth = println!(rt; "orders taken from the pool: {taken}");
    let sixth = println!(rt; "two workers and a reader: {}", met(watched));
    let seventh = println!(rt; "a look while the lock is held: {looks}");
    let before = first.is_ok() && second.is_ok() && third.is_ok() && fourth.is_ok();
    if before && fifth.is_ok() && sixth.is_ok() && seventh.is_ok() {
        ExitCode::SUCCESS
    } else {
        ExitCode::FAILURE
    }
}
