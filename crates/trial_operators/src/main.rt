//! Operators over generated streams, milled bucket by bucket: `trial_operators DIAGRAM TUPLES BUCKETS`
//! writes how many rows come out, and their checksum.
#![tactic(auto)]

mod diagrams;
mod driver;
#[cfg(test)]
mod tests;

use crate::diagrams::Diagram;
use crate::driver::{Miller, Trouble, milled};
use dpc_lists::faults::NoMemory;
use dpc_model::tuples::Tuple;
use std::alloc::Global;
use std::env;
use std::process::ExitCode;

/// What the words ask for.
#[derive(Drop)]
struct Request {
    diagram: Diagram,
    tuples: u64,
    buckets: u64,
}

/// The request of three words, if they are one.
fn requested(words: &[String]) -> Option<Request> {
    let [diagram, tuples, buckets] = words else {
        return None;
    };
    Some(Request {
        diagram: Diagram::named(diagram.as_str())?,
        tuples: tuples.as_str().parse().ok()?,
        buckets: buckets.as_str().parse().ok()?,
    })
}

/// A number that tells most lists of rows apart.
fn checksum(rows: &[Tuple]) -> u64 {
    let mut sum: u64 = 0;
    for row in rows {
        sum = sum.wrapping_mul(31).wrapping_add(row.stime);
        for value in row.vals.as_slice() {
            sum = sum.wrapping_mul(31).wrapping_add(value.unsigned_abs());
            sum = sum.wrapping_mul(31).wrapping_add(u64::from(*value < 0));
        }
    }
    sum
}

/// The rows of a diagram over generated streams.
fn rows(alloc: Global, request: &Request) -> Result<Vec<Tuple>, Trouble> {
    let plan = diagrams::generated(alloc, request.diagram, request.tuples, request.buckets)?;
    milled(alloc, &plan, request.buckets, Miller::Itself)
}

fn main(rt: HostRuntime) -> ExitCode {
    let alloc = rt.alloc();
    let mut words = Vec::new(alloc);
    let Ok(arguments) = env::args(&rt) else {
        return ExitCode::from(3);
    };
    for word in arguments.skip(1) {
        if words.push(word).is_err() {
            return ExitCode::from(3);
        }
    }
    let Some(request) = requested(words.as_slice()) else {
        return ExitCode::from(1);
    };
    match rows(alloc, &request) {
        Ok(rows) => {
            let sum = checksum(rows.as_slice());
            match println!(rt; "rows {} checksum {sum}", rows.len()) {
                Ok(()) => ExitCode::SUCCESS,
                Err(_) => ExitCode::from(6),
            }
        }
        Err(Trouble::NoMemory) => ExitCode::from(3),
        Err(Trouble::BadPlan) => ExitCode::from(2),
    }
}
