//! What happened in phases.
ghost use Rattle.std.specs.Prelude.{◌≡◌, ◌-◌, ◌++◌, length, take, flat_map, IfOk, OnOk};
ghost use Rattle.dpc_lists.specs.Lists.{list_any};
ghost use Rattle.dpc_model.specs.Words.{text_of};
ghost use Rattle.picture_svg.specs.Marks.{mark_letter, has_letter, kind_in, kinds_in};
ghost use Rattle.picture_svg.specs.Svg.{told_of};
ghost use Rattle.picture_text.specs.Text.{mark_lines};

use dpc_lists::faults::NoMemory;
use dpc_model::plans::Plan;
use picture_model::columns::{Column, Mark};
use picture_text::text::{last_clients, put_mark, put_summaries};
use std::alloc::Global;

/// The lines of a phase's marks, at most so many, and how many more there may be.
fn put_marks(
    told: &mut Vec<u8>,
    plan: &Plan,
    column: &Column,
    left: usize,
) -> Result<usize, NoMemory>
    ensures { IfOk result (λ rest. (told.new.items ≡ told.old.items ++ text_of (take left (mark_lines plan.now column.now)))
        × (rest ≡ left - length column.now.marks)) }
{
    let marks = column.marks.as_slice();
    let count = left.min(marks.len());
    for i in 0..count {
        put_mark(told, plan, column, marks[i])?;
    }
    Ok(left - count)
}

/// The first lines of these phases' marks, at most so many.
pub(crate) fn first_marks(
    alloc: Global,
    plan: &Plan,
    columns: &[Column],
    most: usize,
) -> Result<Vec<u8>, NoMemory>
    ensures { IfOk result (λ told. told.items ≡ text_of (take most (flat_map (mark_lines plan.now) columns.now))) }
{
    let mut told = Vec::new(alloc);
    let mut left = most;
    for column in columns {
        left = put_marks(&mut told, plan, column, left)?;
    }
    Ok(told)
}

/// What each client has at the end, and the first hundred lines of all marks.
pub(crate) fn told_of(alloc: Global, plan: &Plan, columns: &[Column]) -> Result<Vec<u8>, NoMemory>
    ensures { IfOk result (λ told. told.items ≡ told_of plan.now columns.now) }
{
    let mut marks = first_marks(alloc, plan, columns, 100)?;
    let mut told = Vec::new(alloc);
    put_summaries(&mut told, plan, last_clients(columns))?;
    told.append(&mut marks)?;
    Ok(told)
}

/// The letter of what happened.
fn mark_letter(mark: Mark) -> u8
    ensures { result ≡ mark_letter mark }
{
    match mark {
        Mark::Cut(..) => b'c',
        Mark::Heal(..) => b'h',
        Mark::Lose(..) => b'l',
        Mark::Repeat(..) => b'2',
        Mark::Crash(_) => b'x',
        Mark::Restart(..) => b'r',
        Mark::Grant(..) => b'g',
    }
}

/// Whether something with this letter happened in a phase.
fn has_letter(column: &Column, letter: u8) -> bool
    ensures { result ≡ has_letter letter column.now }
{
    column
        .marks
        .as_slice()
        .iter()
        .any(|mark| mark_letter(*mark) == letter)
}

/// Whether it happened in one of these.
fn any_has(columns: &[Column], letter: u8) -> bool
    ensures { result ≡ list_any (has_letter letter) columns.now }
{
    columns.iter().any(|column| has_letter(column, letter))
}

/// The letter, where it happened in one of these phases.
fn put_kind(kinds: &mut Vec<u8>, columns: &[Column], letter: u8) -> Result<(), NoMemory>
    ensures { OnOk result (kinds.new.items ≡ kinds.old.items ++ kind_in columns.now letter) }
{
    if any_has(columns, letter) {
        kinds.push(letter)?;
    }
    Ok(())
}

/// What happened in these phases, a letter for each kind.
pub(crate) fn kinds_in(alloc: Global, columns: &[Column]) -> Result<Vec<u8>, NoMemory>
    ensures { IfOk result (λ kinds. kinds.items ≡ kinds_in columns.now) }
{
    let mut kinds = Vec::new(alloc);
    put_kind(&mut kinds, columns, b'c')?;
    put_kind(&mut kinds, columns, b'h')?;
    put_kind(&mut kinds, columns, b'l')?;
    put_kind(&mut kinds, columns, b'2')?;
    put_kind(&mut kinds, columns, b'x')?;
    put_kind(&mut kinds, columns, b'r')?;
    put_kind(&mut kinds, columns, b'g')?;
    Ok(kinds)
}
