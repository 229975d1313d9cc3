//! A stream through an inlet, its buckets and an output: `trial_streams TUPLES LATE` writes how many
//! batches were sent, and how many tuples the output keeps. The second of two readers acknowledges LATE
//! tuples late.
#![tactic(auto)]

mod pipeline;

use crate::pipeline::{Pipeline, Trouble, WIDTH, batch};
use std::alloc::Global;
use std::env;
use std::process::ExitCode;

/// What the words ask for.
#[derive(Clone, Copy)]
struct Request {
    tuples: u64,
    late: u64,
}

/// The request of two words, if they are one.
fn requested(words: &[String]) -> Option<Request> {
    let [tuples, late] = words else {
        return None;
    };
    Some(Request {
        tuples: tuples.as_str().parse().ok()?,
        late: late.as_str().parse().ok()?,
    })
}

/// How many batches were sent, and how many tuples are kept.
fn streamed(alloc: Global, request: Request) -> Result<(usize, usize), Trouble> {
    let mut pipeline = Pipeline::new(alloc, request.tuples, request.late)?;
    let mut sent: usize = 0;
    for index in 0..request.tuples / WIDTH {
        let items = batch(alloc, index.saturating_mul(WIDTH))?;
        sent = sent.saturating_add(pipeline.step(alloc, index, &items)?);
    }
    Ok((sent, pipeline.kept()))
}

fn main(rt: HostRuntime) -> ExitCode {
    let alloc = rt.alloc();
    let mut words = Vec::new(alloc);
    let Ok(arguments) = env::args(&rt) else {
        return ExitCode::from(3);
    };
    for word in arguments.skip(1) {
        if words.push(word).is_err() {
            return ExitCode::from(3);
        }
    }
    let Some(request) = requested(words.as_slice()) else {
        return ExitCode::from(1);
    };
    match streamed(alloc, request) {
        Ok((sent, kept)) => match println!(rt; "sent {sent} kept {kept}") {
            Ok(()) => ExitCode::SUCCESS,
            Err(_) => ExitCode::from(6),
        },
        Err(Trouble::NoMemory) => ExitCode::from(3),
        Err(Trouble::Odd) => ExitCode::from(2),
    }
}
