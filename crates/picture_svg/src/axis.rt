//! The numbers and clocks of phases, and what happened in them.
ghost use Rattle.std.specs.Prelude.{◌≡◌, ◌≤◌, ◌<◌, ◌+◌, ◌*◌, ◌^◌, ◌++◌, length, decimal, OnOk};
ghost use Rattle.picture_svg.specs.Layout.{count_of};
ghost use Rattle.picture_svg.specs.Shapes.{text_at};
ghost use Rattle.picture_svg.specs.Svg.{step_of, label_room, every_of, tick_text, axis_text, mark_line, mark_text, marks_text, legend_top};
ghost use Rattle.picture_text.specs.Text.{last_column};

use crate::layout::{column_at, count_of, group_at, left_at, step_for};
use crate::marks::{first_marks, kinds_in};
use crate::shapes::{put_down, put_escaped, put_move, put_text};
use dpc_lists::faults::NoMemory;
use dpc_model::plans::Plan;
use itoa::Buffer;
use line_writer::{end_line, put_first};
use picture_model::columns::Column;
use std::alloc::Global;

/// How wide a phase is.
pub(crate) fn step_of(columns: &[Column]) -> u64
    ensures step { result ≡ step_of columns.now }
    ensures most { result ≤ 40 }
{
    step_for(count_of(columns))
}

/// A number as a text.
pub(crate) fn put_number(text: &mut Vec<u8>, x: u128, y: u128, number: u64) -> Result<(), NoMemory>
    ensures { OnOk result (text.new.items ≡ text.old.items ++ text_at x y (decimal number)) }
{
    let mut buffer = Buffer::new();
    put_text(text, x, y, buffer.format(number).as_bytes())
}

/// A sum, which always fits.
fn plus(a: u64, b: u64) -> u128
    ensures { result ≡ a + b }
{
    u128::from(a) + u128::from(b)
}

/// The number and the clock of the last phase, in sum; 0 where there is none.
fn last_label(columns: &[Column]) -> u128
    ensures { result ≡ (last_column columns.now).number + (last_column columns.now).clock }
{
    match columns.last() {
        Some(column) => plus(column.number, column.clock),
        None => 0,
    }
}

/// How much room the numbers and clocks of phases want.
fn label_room(columns: &[Column]) -> u128
    ensures room { result ≡ label_room columns.now }
    ensures small { result < 2 ^ 100 }
{
    let mut buffer = Buffer::new();
    let digits = buffer.format(last_label(columns)).as_bytes().len();
    8 * digits as u128 + 12
}

/// At how many phases one has its number and clock written.
fn every_of(columns: &[Column]) -> u128
    ensures every { result ≡ every_of columns.now }
    ensures some { 0 < result }
{
    label_room(columns) / u128::from(step_of(columns).max(1)) + 1
}

/// The number and the clock of a phase, where there is room.
fn put_tick(text: &mut Vec<u8>, columns: &[Column], j: usize) -> Result<(), NoMemory>
    requires { j < count_of columns.now }
    ensures { OnOk result (text.new.items ≡ text.old.items ++ tick_text columns.now j) }
{
    let step = step_of(columns);
    if j as u128 % every_of(columns) != 0 {
        return Ok(());
    }
    let column = column_at(columns, j);
    put_number(text, left_at(step, j), 44, column.number)?;
    put_number(text, left_at(step, j), 62, column.clock)
}

/// The numbers and clocks of phases.
pub(crate) fn put_axis(text: &mut Vec<u8>, columns: &[Column]) -> Result<(), NoMemory>
    ensures { OnOk result (text.new.items ≡ text.old.items ++ axis_text columns.now) }
{
    put_text(text, 10, 44, b"phase")?;
    put_text(text, 10, 62, b"clock")?;
    put_text(text, 10, 84, b"events")?;
    for j in 0..count_of(columns) {
        put_tick(text, columns, j)?;
    }
    Ok(())
}

/// A line through all lanes, which tells this.
fn put_mark_line(text: &mut Vec<u8>, x: u128, low: u128, told: &[u8]) -> Result<(), NoMemory>
    ensures { OnOk result (text.new.items ≡ text.old.items ++ mark_line x low told.now) }
{
    put_first(text, b"<path class='m' d='")?;
    put_move(text, x, 74)?;
    put_down(text, low)?;
    put_first(text, b"'><title>")?;
    put_escaped(text, told)?;
    put_first(text, b"</title></path>")?;
    end_line(text)?;
    Ok(())
}

/// Letters, and a line through all lanes, where something is told.
fn put_mark_text(
    text: &mut Vec<u8>,
    x: u128,
    low: u128,
    kinds: &[u8],
    told: &[u8],
) -> Result<(), NoMemory>
    requires { x < 2 ^ 100 }
    ensures { OnOk result (text.new.items ≡ text.old.items ++ mark_text x low kinds.now told.now) }
{
    if told.is_empty() {
        return Ok(());
    }
    put_text(text, x + 2, 84, kinds)?;
    put_mark_line(text, x, low, told)?;
    Ok(())
}

/// The marks of all phases, through lanes that end here.
pub(crate) fn put_all_marks(
    text: &mut Vec<u8>,
    alloc: Global,
    plan: &Plan,
    columns: &[Column],
    low: u128,
) -> Result<(), NoMemory>
    requires { low ≡ legend_top plan.now }
    ensures { OnOk result (text.new.items ≡ text.old.items ++ marks_text plan.now columns.now) }
{
    let step = step_of(columns);
    for j in 0..count_of(columns) {
        let group = group_at(columns, j);
        let kinds = kinds_in(alloc, group)?;
        let told = first_marks(alloc, plan, group, 8)?;
        put_mark_text(
            text,
            left_at(step, j),
            low,
            kinds.as_slice(),
            told.as_slice(),
        )?;
    }
    Ok(())
}
