//! What the words behind a line's names say: values, aggregates and keys.
ghost use Rattle.std.specs.Prelude.{◌≡◌, true, map, IfOk};
ghost use Rattle.script_rules.specs.Spelling as spec;
ghost use Rattle.script_rules.specs.Symbols.{aggs_of};
ghost use Rattle.script_words.specs.Cursors.{words_left};
ghost use Rattle.script_words.specs.Operands.{are_i64, pairs_of};

use crate::spelling::{column_of, number, value};
use crate::symbols::aggregate_of;
use crate::words::Words;
use dpc_lists::faults::NoMemory;
use dpc_lists::lists::Listed;
use dpc_model::operators::Agg;
use dpc_model::tuples::Vals;
use std::alloc::Global;

/// The values that words are, each one of i64.
pub fn read_values(alloc: Global, mut words: Words<'_>) -> Result<Vals, NoMemory>
    requires { are_i64 (words_left words) ≡ true }
    ensures { IfOk result (λ vals. vals ≡ map spec.value (words_left words.entry)) }
{
    let mut vals = Vals::new(alloc);
    while let Some(word) = words.next() {
        // each word is a value
        vals.push(value(word).unwrap_or(0))?;
    }
    Ok(vals)
}

/// The aggregates that words are: each word but a column begins one, of the column behind it.
pub fn read_aggs(alloc: Global, mut words: Words<'_>) -> Result<Listed<Agg>, NoMemory>
    ensures { IfOk result (λ aggs. aggs ≡ aggs_of (words_left words.entry)) }
{
    let mut aggs = Vec::new(alloc);
    while let Some(word) = words.next() {
        let column = column_of(words.word(0)).unwrap_or(0);
        if let Some(agg) = aggregate_of(word, column) {
            aggs.push(agg)?;
        }
    }
    Ok(Listed::from_vec(aggs))
}

/// The pairs of numbers that words are, or nothing where a word is none of u64.
pub fn read_pairs(
    alloc: Global,
    mut words: Words<'_>,
) -> Result<Option<Listed<(u64, u64)>>, NoMemory>
    ensures { IfOk result (λ pairs. pairs ≡ pairs_of (words_left words.entry)) }
{
    let mut pairs = Vec::new(alloc);
    while let Some(left) = words.next() {
        let Some(left) = number(left) else {
            return Ok(None);
        };
        let Some(right) = words.next() else {
            break;
        };
        let Some(right) = number(right) else {
            return Ok(None);
        };
        pairs.push((left, right))?;
    }
    Ok(Some(Listed::from_vec(pairs)))
}
