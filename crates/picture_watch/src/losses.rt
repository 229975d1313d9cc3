//! What a script loses and repeats as its phases begin. No event says so.
ghost use Rattle.std.specs.Prelude.{◌≡◌, ◌++◌, ◌-◌, [], map, flat_map, IfOk, OnOk};
ghost use Rattle.dpc_lists.specs.Lists.{nth};
ghost use Rattle.picture_model.specs.Drawing.{with_losses};
ghost use Rattle.picture_model.specs.Marking.{loss_of, phase_losses};

use dpc_lists::faults::NoMemory;
use dpc_lists::lists::Listed;
use dpc_model::scripts::{Directive, Phase};
use picture_model::columns::{Column, Mark};
use std::alloc::Global;

/// What a directive loses or repeats.
fn put_loss(marks: &mut Vec<Mark>, directive: Directive) -> Result<(), NoMemory>
    ensures { OnOk result (marks.new.items ≡ marks.old.items ++ loss_of directive) }
{
    match directive {
        Directive::Lose(from, to) => marks.push(Mark::Lose(from, to))?,
        Directive::Repeat(from, to) => marks.push(Mark::Repeat(from, to))?,
        _ => {}
    }
    Ok(())
}

/// What all these lose and repeat.
fn losses_by(alloc: Global, directives: &[Directive]) -> Result<Listed<Mark>, NoMemory>
    ensures { IfOk result (λ marks. marks ≡ flat_map loss_of directives.now) }
{
    let mut marks = Vec::new(alloc);
    for directive in directives {
        put_loss(&mut marks, *directive)?;
    }
    Ok(Listed::from_vec(marks))
}

/// The same by phase.
pub(crate) fn losses_of(alloc: Global, phases: &[Phase]) -> Result<Vec<Listed<Mark>>, NoMemory>
    ensures { IfOk result (λ losses. losses.items ≡ map phase_losses phases.now) }
{
    let mut losses = Vec::new(alloc);
    for phase in phases {
        losses.push(losses_by(alloc, phase.directives.as_slice())?)?;
    }
    Ok(losses)
}

/// What was lost and repeated in the phase of a number.
fn losses_in(losses: &[Listed<Mark>], number: u64) -> &[Mark]
    ensures { result.now ≡ nth [] losses.now (number - 1) }
{
    match losses.get(number.saturating_sub(1) as usize) {
        Some(marks) => marks.as_slice(),
        None => &[],
    }
}

/// Puts what was lost and repeated in its phase in front of a column's marks.
fn put_losses(alloc: Global, losses: &[Listed<Mark>], column: &mut Column) -> Result<(), NoMemory>
    ensures { OnOk result (column.new ≡ with_losses losses.now column.old) }
{
    let mut marks = Vec::from_slice(alloc, losses_in(losses, column.number))?;
    marks.extend_from_slice(column.marks.as_slice())?;
    column.marks = Listed::from_vec(marks);
    Ok(())
}

/// The same in all columns.
pub(crate) fn put_all_losses(
    alloc: Global,
    losses: &[Listed<Mark>],
    columns: &mut [Column],
) -> Result<(), NoMemory>
    ensures { OnOk result (columns.new ≡ map (with_losses losses.now) columns.old) }
{
    for column in columns.iter_mut() {
        put_losses(alloc, losses, column)?;
    }
    Ok(())
}
