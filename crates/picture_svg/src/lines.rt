//! Lines, bars and letters along phases of one width.
ghost use Rattle.std.specs.Prelude.{◌≡◌, ◌<◌, ◌≤◌, ◌++◌, ◌∷◌, [], length, flat_map, fold, max, OnOk, IfOk};
ghost use Rattle.dpc_lists.specs.Lists.{nth, range_with_len};
ghost use Rattle.picture_svg.specs.Lanes.{rise, line_over, bar_at, bars_of, is_new, new_place, new_letter, new_letters, rose, rose_place, rose_letter, rose_letters, most_in};

use crate::layout::{height_in, left_at};
use crate::shapes::{put_along, put_down, put_letters, put_move, put_place};
use dpc_lists::faults::NoMemory;
use std::alloc::Global;

/// The number at a place, or 0.
pub(crate) fn at(values: &[u64], j: usize) -> u64
    ensures { result ≡ nth 0 values.now j }
{
    values.get(j).copied().unwrap_or(0)
}

/// Up to a number's height over the base, and along its phase.
fn put_rise(
    moves: &mut Vec<u8>,
    step: u64,
    room: u64,
    base: u128,
    whole: u64,
    value: u64,
) -> Result<(), NoMemory>
    requires { room < 64 }
    ensures { OnOk result (moves.new.items ≡ moves.old.items ++ rise step room base whole value) }
{
    put_down(
        moves,
        base.saturating_sub(u128::from(height_in(room, value, whole))),
    )?;
    put_along(moves, u128::from(step))
}

/// A line over a base.
pub(crate) fn put_line(
    moves: &mut Vec<u8>,
    step: u64,
    room: u64,
    base: u128,
    whole: u64,
    values: &[u64],
) -> Result<(), NoMemory>
    requires { room < 64 }
    ensures { OnOk result (moves.new.items ≡ moves.old.items ++ line_over step room base whole values.now) }
{
    put_move(moves, 170, base)?;
    for value in values {
        put_rise(moves, step, room, base, whole, *value)?;
    }
    Ok(())
}

/// A bar over a phase that has this letter.
fn put_bar(
    moves: &mut Vec<u8>,
    step: u64,
    y: u128,
    letter: u64,
    letters: &[u64],
    j: usize,
) -> Result<(), NoMemory>
    requires { step ≤ 40 }
    ensures { OnOk result (moves.new.items ≡ moves.old.items ++ bar_at step y letter letters.now j) }
{
    if at(letters, j) == letter {
        put_move(moves, left_at(step, j), y)?;
        put_along(moves, u128::from(step))?;
    }
    Ok(())
}

/// The bars of a letter.
pub(crate) fn put_bars(
    moves: &mut Vec<u8>,
    step: u64,
    y: u128,
    letter: u64,
    letters: &[u64],
) -> Result<(), NoMemory>
    requires { step ≤ 40 }
    ensures { OnOk result (moves.new.items ≡ moves.old.items ++ bars_of step y letter letters.now) }
{
    for j in 0..letters.len() {
        put_bar(moves, step, y, letter, letters, j)?;
    }
    Ok(())
}

/// Whether a phase has another letter than the one before it.
fn is_new(letters: &[u64], j: usize) -> bool
    ensures { result ≡ is_new letters.now j }
{
    j == 0 || at(letters, j - 1) != at(letters, j)
}

/// A letter of one byte. Another number counts as want of memory.
fn put_letter(letters: &mut Vec<u8>, letter: u64) -> Result<(), NoMemory>
    ensures { OnOk result (letters.new.items ≡ letters.old.items ++ letter ∷ []) }
{
    let letter = u8::try_from(letter).map_err(|_| NoMemory)?;
    letters.push(letter)?;
    Ok(())
}

/// The place of a new letter.
fn put_new_place(places: &mut Vec<u8>, step: u64, letters: &[u64], j: usize) -> Result<(), NoMemory>
    requires { step ≤ 40 }
    ensures { OnOk result (places.new.items ≡ places.old.items ++ new_place step letters.now j) }
{
    if is_new(letters, j) {
        put_place(places, left_at(step, j) + 1)?;
    }
    Ok(())
}

/// A new letter.
fn put_new_letter(text: &mut Vec<u8>, letters: &[u64], j: usize) -> Result<(), NoMemory>
    ensures { OnOk result (text.new.items ≡ text.old.items ++ new_letter letters.now j) }
{
    if is_new(letters, j) {
        put_letter(text, at(letters, j))?;
    }
    Ok(())
}

fn new_places(alloc: Global, step: u64, letters: &[u64]) -> Result<Vec<u8>, NoMemory>
    requires { step ≤ 40 }
    ensures { IfOk result (λ places. places.items ≡ flat_map (new_place step letters.now) (range_with_len 0 (length letters.now))) }
{
    let mut places = Vec::new(alloc);
    for j in 0..letters.len() {
        put_new_place(&mut places, step, letters, j)?;
    }
    Ok(places)
}

fn only_new(alloc: Global, letters: &[u64]) -> Result<Vec<u8>, NoMemory>
    ensures { IfOk result (λ text. text.items ≡ flat_map (new_letter letters.now) (range_with_len 0 (length letters.now))) }
{
    let mut text = Vec::new(alloc);
    for j in 0..letters.len() {
        put_new_letter(&mut text, letters, j)?;
    }
    Ok(text)
}

/// A letter where a phase has another one than the phase before it.
pub(crate) fn put_new_letters(
    text: &mut Vec<u8>,
    alloc: Global,
    step: u64,
    y: u128,
    letters: &[u64],
) -> Result<(), NoMemory>
    requires { step ≤ 40 }
    ensures { OnOk result (text.new.items ≡ text.old.items ++ new_letters step y letters.now) }
{
    let places = new_places(alloc, step, letters)?;
    let shown = only_new(alloc, letters)?;
    put_letters(text, places.as_slice(), y, shown.as_slice())
}

/// Whether a number rose in a phase.
fn rose(values: &[u64], j: usize) -> bool
    ensures { result ≡ rose values.now j }
{
    let before = if j == 0 { 0 } else { at(values, j - 1) };
    before < at(values, j)
}

fn put_rose_place(
    places: &mut Vec<u8>,
    step: u64,
    shift: u64,
    values: &[u64],
    j: usize,
) -> Result<(), NoMemory>
    requires { step ≤ 40 }
    ensures { OnOk result (places.new.items ≡ places.old.items ++ rose_place step shift values.now j) }
{
    if rose(values, j) {
        put_place(places, left_at(step, j) + u128::from(shift))?;
    }
    Ok(())
}

fn put_rose_letter(text: &mut Vec<u8>, letter: u8, values: &[u64], j: usize) -> Result<(), NoMemory>
    ensures { OnOk result (text.new.items ≡ text.old.items ++ rose_letter letter values.now j) }
{
    if rose(values, j) {
        text.push(letter)?;
    }
    Ok(())
}

fn rose_places(alloc: Global, step: u64, shift: u64, values: &[u64]) -> Result<Vec<u8>, NoMemory>
    requires { step ≤ 40 }
    ensures { IfOk result (λ places. places.items ≡ flat_map (rose_place step shift values.now) (range_with_len 0 (length values.now))) }
{
    let mut places = Vec::new(alloc);
    for j in 0..values.len() {
        put_rose_place(&mut places, step, shift, values, j)?;
    }
    Ok(places)
}

fn only_rose(alloc: Global, letter: u8, values: &[u64]) -> Result<Vec<u8>, NoMemory>
    ensures { IfOk result (λ text. text.items ≡ flat_map (rose_letter letter values.now) (range_with_len 0 (length values.now))) }
{
    let mut text = Vec::new(alloc);
    for j in 0..values.len() {
        put_rose_letter(&mut text, letter, values, j)?;
    }
    Ok(text)
}

/// A letter at each phase in which a number rose.
pub(crate) fn put_rose_letters(
    text: &mut Vec<u8>,
    alloc: Global,
    step: u64,
    shift: u64,
    y: u128,
    letter: u8,
    values: &[u64],
) -> Result<(), NoMemory>
    requires { step ≤ 40 }
    ensures { OnOk result (text.new.items ≡ text.old.items ++ rose_letters step shift y letter values.now) }
{
    let places = rose_places(alloc, step, shift, values)?;
    let shown = only_rose(alloc, letter, values)?;
    put_letters(text, places.as_slice(), y, shown.as_slice())
}

/// The greatest number, at least 1.
pub(crate) fn most_in(values: &[u64]) -> u64
    ensures { result ≡ most_in values.now }
{
    let mut most: u64 = 1;
    for value in values {
        most = most.max(*value);
    }
    most
}
