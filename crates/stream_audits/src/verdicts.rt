//! The line of a verdict.
ghost use Rattle.std.specs.Prelude.{◌≡◌, ◌++◌, OnOk, IfOk};
ghost use Rattle.line_writer.specs.Spaces.{behind_spaces};
ghost use Rattle.dpc_model.specs.Words.{line_of};
ghost use Rattle.stream_audits.specs.Verdicts as spec;

use audit_core::verdict::Verdict;
use dpc_lists::faults::NoMemory;
use dpc_model::tuples::Tuple;
use line_writer::{end_line, put_first, put_number, put_values, put_word};
use std::alloc::Global;

/// A tuple's time and values, or that there is none, each word behind a space.
fn put_found(text: &mut Vec<u8>, found: &Option<Tuple>) -> Result<(), NoMemory>
    ensures { OnOk result (text.new.items ≡ text.old.items ++ behind_spaces (spec.found_words found.now)) }
{
    match found {
        None => put_word(text, b"none"),
        Some(tuple) => {
            put_number(text, tuple.stime)?;
            put_values(text, tuple.vals.as_slice())
        }
    }
}

/// Where the first difference stands, and what stands there on both sides.
fn put_difference(
    text: &mut Vec<u8>,
    number: u64,
    had: &Option<Tuple>,
    ideal: &Option<Tuple>,
) -> Result<(), NoMemory>
    ensures { OnOk result (text.new.items ≡ text.old.items ++ line_of (spec.difference_words number had.now ideal.now)) }
{
    put_first(text, b"difference")?;
    put_number(text, number)?;
    put_word(text, b"had")?;
    put_found(text, had)?;
    put_word(text, b"ideal")?;
    put_found(text, ideal)?;
    end_line(text)?;
    Ok(())
}

/// How many stable tuples there are, and the bound.
fn put_prefix(text: &mut Vec<u8>, stable: u64, bound: u64) -> Result<(), NoMemory>
    ensures { OnOk result (text.new.items ≡ text.old.items ++ line_of (spec.prefix_words stable bound)) }
{
    put_first(text, b"prefix")?;
    put_number(text, stable)?;
    put_number(text, bound)?;
    end_line(text)
}

/// That it is all of the failure-free stream.
fn put_whole(text: &mut Vec<u8>) -> Result<(), NoMemory>
    ensures { OnOk result (text.new.items ≡ text.old.items ++ line_of spec.whole_words) }
{
    put_first(text, b"whole")?;
    end_line(text)
}

/// The line of a verdict. The only error is want of memory.
pub fn verdict_line(alloc: Global, verdict: &Verdict) -> Result<Vec<u8>, NoMemory>
    ensures { IfOk result (λ text. text.items ≡ spec.verdict_line verdict.now) }
{
    let mut text = Vec::new(alloc);
    match verdict {
        Verdict::Whole => put_whole(&mut text)?,
        Verdict::Prefix { stable, bound } => put_prefix(&mut text, *stable, *bound)?,
        Verdict::Difference { number, had, ideal } => {
            put_difference(&mut text, *number, had, ideal)?
        }
    }
    Ok(text)
}
