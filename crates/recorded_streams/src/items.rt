//! The item that a line is.
ghost use Rattle.std.specs.Prelude.{◌≡◌, true, bytes_eq, IfOk};
ghost use Rattle.dpc_lists.specs.Lists.{list_all};
ghost use Rattle.stream_codec.specs.Frames.{is_i64, item_values};
ghost use Rattle.recorded_streams.specs.Cuts.{pieces_left};
ghost use Rattle.recorded_streams.specs.Streams as spec;

use crate::pieces::Pieces;
use dpc_model::tuples::{Item, Tuple, Vals};
use script_words::spelling::{number, value};
use std::alloc::{AllocError, Global};
use stream_codec::kinds::{Field, MOST_COLUMNS};

/// Whether a word is this one.
fn is(word: &[u8], key: &[u8]) -> bool
    ensures { result ≡ bytes_eq word.now key.now }
{
    word == key
}

/// The values that the words left are.
fn values_in(alloc: Global, words: Pieces<'_>) -> Result<Option<Vals>, AllocError>
    ensures { IfOk result (λ told. told ≡ spec.values_in (pieces_left words.entry)) }
{
    let mut words = words;
    let mut values = Vals::new(alloc);
    while let Some(word) = words.next() {
        let Some(next) = value(word) else {
            return Ok(None);
        };
        values.push(next)?;
    }
    Ok(Some(values))
}

/// The tuple that the words left are: a time and values.
fn tuple_in(alloc: Global, words: Pieces<'_>) -> Result<Option<Tuple>, AllocError>
    ensures { IfOk result (λ told. told ≡ spec.tuple_in (pieces_left words.entry)) }
{
    let mut words = words;
    let Some(word) = words.next() else {
        return Ok(None);
    };
    let Some(stime) = number(word) else {
        return Ok(None);
    };
    Ok(values_in(alloc, words)?.map(|vals| Tuple { stime, vals }))
}

/// The number that the only word left is.
fn number_in(words: Pieces<'_>) -> Option<u64>
    ensures { result ≡ spec.number_in (pieces_left words.entry) }
{
    let mut words = words;
    let word = words.next()?;
    if words.is_empty() { number(word) } else { None }
}

/// A stable tuple behind its number.
fn stable_in(alloc: Global, words: Pieces<'_>) -> Result<Option<Item>, AllocError>
    ensures { IfOk result (λ told. told ≡ spec.stable_in (pieces_left words.entry)) }
{
    let mut words = words;
    let Some(word) = words.next() else {
        return Ok(None);
    };
    let Some(k) = number(word) else {
        return Ok(None);
    };
    Ok(tuple_in(alloc, words)?.map(|tuple| Item::Stable(k, tuple)))
}

/// A bound and how many tuples lie below it.
fn boundary_in(words: Pieces<'_>) -> Option<Item>
    ensures { result ≡ spec.boundary_in (pieces_left words.entry) }
{
    let mut words = words;
    let bound = words.next()?;
    let count = number_in(words)?;
    Some(Item::Boundary(number(bound)?, count))
}

/// The item that a word is, with those behind it.
fn item_of_words(alloc: Global, word: &[u8], words: Pieces<'_>) -> Result<Option<Item>, AllocError>
    ensures { IfOk result (λ told. told ≡ spec.item_of_words word.now (pieces_left words.entry)) }
{
    if is(word, b"stable") {
        stable_in(alloc, words)
    } else if is(word, b"tentative") {
        Ok(tuple_in(alloc, words)?.map(|tuple| Item::Tentative(tuple)))
    } else if is(word, b"boundary") {
        Ok(boundary_in(words))
    } else if is(word, b"undo") {
        Ok(number_in(words).map(|count| Item::Undo(count)))
    } else if is(word, b"passed") {
        Ok(number_in(words).map(|upto| Item::Passed(upto)))
    } else if is(word, b"rec_done") && words.is_empty() {
        Ok(Some(Item::RecDone))
    } else {
        Ok(None)
    }
}

/// Whether a tuple's time is in range, and it has 1 to 8 values.
fn tuple_fits(tuple: &Tuple) -> bool
    ensures { result ≡ spec.tuple_fits tuple.now }
{
    let count = tuple.vals.len();
    Field::Time.holds(tuple.stime) && 1 <= count && count <= MOST_COLUMNS
}

/// Whether an item may stand in the stream of a plan with or without passing.
fn may_stand(passing: bool, item: &Item) -> bool
    requires { list_all is_i64 (item_values item.now) ≡ true }
    ensures { result ≡ spec.may_stand passing item.now }
{
    match item {
        Item::Stable(k, tuple) => Field::Number.holds(*k) && tuple_fits(tuple),
        Item::Tentative(tuple) => tuple_fits(tuple),
        Item::Passed(upto) => passing && Field::Clock.holds(*upto),
        Item::Boundary(bound, count) => {
            Field::Clock.holds(*bound) && Field::Number.holds(*count)
        }
        Item::Undo(count) => Field::Number.holds(*count),
        Item::RecDone => true,
    }
}

/// The item that a line is; its words are separated by one space.
pub fn item_of(alloc: Global, passing: bool, line: &[u8]) -> Result<Option<Item>, AllocError>
    ensures { IfOk result (λ told. told ≡ spec.item_of passing line.now) }
{
    let mut words = Pieces::of(line);
    let Some(word) = words.next() else {
        return Ok(None);
    };
    let Some(item) = item_of_words(alloc, word, words)? else {
        return Ok(None);
    };
    if may_stand(passing, &item) {
        Ok(Some(item))
    } else {
        Ok(None)
    }
}
