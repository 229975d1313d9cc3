//! The lanes.
ghost use Rattle.std.specs.Prelude.{◌≡◌, ◌<◌, ◌≤◌, ◌^◌, ◌++◌, flat_map, codes, OnOk};
ghost use Rattle.picture_svg.specs.Shapes.{path_of, down_to};
ghost use Rattle.picture_svg.specs.Lanes.{line_over, bars_of, taken_letters, total_text, source_lane, link_lane, state_bars, states_shown, replica_lane, held_lines, client_lane};

use crate::axis::put_number;
use crate::layout::left_at;
use crate::lines::{at, most_in, put_bars, put_line, put_new_letters, put_rose_letters};
use crate::shapes::{put_down, put_path, put_text};
use crate::values::{What, values_of};
use dpc_lists::faults::NoMemory;
use picture_model::columns::Column;
use std::alloc::Global;

/// A step line of a class, over a base.
fn put_line_path(
    text: &mut Vec<u8>,
    alloc: Global,
    class: &[u8],
    step: u64,
    room: u64,
    base: u128,
    whole: u64,
    values: &[u64],
) -> Result<(), NoMemory>
    requires { room < 64 }
    ensures { OnOk result (text.new.items ≡ text.old.items ++ path_of class.now (line_over step room base whole values.now)) }
{
    let mut moves = Vec::new(alloc);
    put_line(&mut moves, step, room, base, whole, values)?;
    put_path(text, class, moves.as_slice())
}

/// The area below a step line.
fn put_area_path(
    text: &mut Vec<u8>,
    alloc: Global,
    step: u64,
    base: u128,
    whole: u64,
    values: &[u64],
) -> Result<(), NoMemory>
    ensures { OnOk result (text.new.items ≡ text.old.items ++ path_of (codes "b") (line_over step 16 base whole values.now ++ down_to base)) }
{
    let mut moves = Vec::new(alloc);
    put_line(&mut moves, step, 16, base, whole, values)?;
    put_down(&mut moves, base)?;
    put_path(text, b"b", moves.as_slice())
}

/// The lane of a source, whose top is at y.
pub(crate) fn put_source(
    text: &mut Vec<u8>,
    alloc: Global,
    step: u64,
    end: u64,
    columns: &[Column],
    name: &[u8],
    y: u128,
    s: u64,
) -> Result<(), NoMemory>
    requires { y < 2 ^ 100 }
    ensures { OnOk result (text.new.items ≡ text.old.items ++ source_lane step end columns.now name.now y s) }
{
    let bounds = values_of(alloc, What::Bound(s), columns)?;
    let sents = values_of(alloc, What::Sent(s), columns)?;
    put_text(text, 10, y + 16, name)?;
    put_area_path(text, alloc, step, y + 20, end, bounds.as_slice())?;
    put_line_path(text, alloc, b"e", step, 16, y + 20, end, sents.as_slice())?;
    Ok(())
}

/// Bars of a class, over phases that have this letter.
fn put_bar_path(
    text: &mut Vec<u8>,
    alloc: Global,
    class: &[u8],
    step: u64,
    y: u128,
    letter: u64,
    letters: &[u64],
) -> Result<(), NoMemory>
    requires { step ≤ 40 }
    ensures { OnOk result (text.new.items ≡ text.old.items ++ path_of class.now (bars_of step y letter letters.now)) }
{
    let mut moves = Vec::new(alloc);
    put_bars(&mut moves, step, y, letter, letters)?;
    put_path(text, class, moves.as_slice())
}

/// The lane of the links, whose top is at y.
pub(crate) fn put_links(
    text: &mut Vec<u8>,
    alloc: Global,
    step: u64,
    columns: &[Column],
    y: u128,
) -> Result<(), NoMemory>
    requires step { step ≤ 40 }
    requires top { y < 2 ^ 100 }
    ensures { OnOk result (text.new.items ≡ text.old.items ++ link_lane step columns.now y) }
{
    let letters = values_of(alloc, What::Links, columns)?;
    put_text(text, 10, y + 16, b"cut links")?;
    put_bar_path(
        text,
        alloc,
        b"k",
        step,
        y + 12,
        u64::from(b'.'),
        letters.as_slice(),
    )?;
    put_new_letters(text, alloc, step, y + 16, letters.as_slice())?;
    Ok(())
}

/// The bars of a state.
fn put_state_bars(
    text: &mut Vec<u8>,
    alloc: Global,
    step: u64,
    y: u128,
    letters: &[u64],
    letter: u8,
) -> Result<(), NoMemory>
    requires step { step ≤ 40 }
    requires top { y < 2 ^ 100 }
    ensures { OnOk result (text.new.items ≡ text.old.items ++ state_bars step y letters.now letter) }
{
    put_bar_path(
        text,
        alloc,
        &[letter],
        step,
        y + 12,
        u64::from(letter),
        letters,
    )
}

/// The states of a replica.
fn put_states(
    text: &mut Vec<u8>,
    alloc: Global,
    step: u64,
    y: u128,
    letters: &[u64],
) -> Result<(), NoMemory>
    requires step { step ≤ 40 }
    requires top { y < 2 ^ 100 }
    ensures { OnOk result (text.new.items ≡ text.old.items ++ states_shown step y letters.now) }
{
    for letter in b"SUCRx" {
        put_state_bars(text, alloc, step, y, letters, *letter)?;
    }
    put_new_letters(text, alloc, step, y + 16, letters)?;
    Ok(())
}

/// The lane of a replica, whose top is at y.
pub(crate) fn put_replica(
    text: &mut Vec<u8>,
    alloc: Global,
    step: u64,
    columns: &[Column],
    name: &[u8],
    y: u128,
    r: u64,
) -> Result<(), NoMemory>
    requires step { step ≤ 40 }
    requires top { y < 2 ^ 100 }
    ensures { OnOk result (text.new.items ≡ text.old.items ++ replica_lane step columns.now name.now y r) }
{
    let letters = values_of(alloc, What::State(r), columns)?;
    put_text(text, 10, y + 16, name)?;
    put_states(text, alloc, step, y, letters.as_slice())?;
    Ok(())
}

/// The lines of what a client holds.
fn put_held(
    text: &mut Vec<u8>,
    alloc: Global,
    step: u64,
    y: u128,
    held: &[u64],
    stable: &[u64],
) -> Result<(), NoMemory>
    requires { y < 2 ^ 100 }
    ensures { OnOk result (text.new.items ≡ text.old.items ++ held_lines step y held.now stable.now) }
{
    let most = most_in(held);
    put_line_path(text, alloc, b"t", step, 22, y + 34, most, held)?;
    put_line_path(text, alloc, b"f", step, 22, y + 34, most, stable)?;
    Ok(())
}

/// The last number, behind its line.
#[tactic(auto, unfolding(crate::specs::Lanes::total_text))]
fn put_total(text: &mut Vec<u8>, step: u64, y: u128, values: &[u64]) -> Result<(), NoMemory>
    requires step { step ≤ 40 }
    requires top { y < 2 ^ 100 }
    ensures { OnOk result (text.new.items ≡ text.old.items ++ total_text step y values.now) }
{
    let last = at(values, values.len().saturating_sub(1));
    put_number(text, left_at(step, values.len()) + 4, y + 17, last)?;
    Ok(())
}

/// The letters of what a client took, and of the replica that it reads.
fn put_taken(
    text: &mut Vec<u8>,
    alloc: Global,
    step: u64,
    columns: &[Column],
    y: u128,
    c: u64,
) -> Result<(), NoMemory>
    requires step { step ≤ 40 }
    requires top { y < 2 ^ 100 }
    ensures { OnOk result (text.new.items ≡ text.old.items ++ taken_letters step columns.now y c) }
{
    let undos = values_of(alloc, What::Undos(c), columns)?;
    let dones = values_of(alloc, What::Dones(c), columns)?;
    let reads = values_of(alloc, What::Reads(c), columns)?;
    put_rose_letters(text, alloc, step, 1, y + 10, b'u', undos.as_slice())?;
    put_rose_letters(text, alloc, step, 9, y + 10, b'd', dones.as_slice())?;
    put_new_letters(text, alloc, step, y + 47, reads.as_slice())?;
    Ok(())
}

/// The lane of a client, whose top is at y.
pub(crate) fn put_client(
    text: &mut Vec<u8>,
    alloc: Global,
    step: u64,
    columns: &[Column],
    name: &[u8],
    y: u128,
    c: u64,
) -> Result<(), NoMemory>
    requires step { step ≤ 40 }
    requires top { y < 2 ^ 100 }
    ensures { OnOk result (text.new.items ≡ text.old.items ++ client_lane step columns.now name.now y c) }
{
    let held = values_of(alloc, What::Held(c), columns)?;
    let stable = values_of(alloc, What::Stable(c), columns)?;
    put_text(text, 10, y + 30, name)?;
    put_text(text, 10, y + 47, b"reads")?;
    put_held(text, alloc, step, y, held.as_slice(), stable.as_slice())?;
    put_total(text, step, y, stable.as_slice())?;
    put_taken(text, alloc, step, columns, y, c)?;
    Ok(())
}
