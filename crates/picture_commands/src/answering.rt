//! What is to be written of the run of a script as a picture.
ghost use Rattle.std.specs.Prelude.{◌≡◌, ◌≤◌, false, vec_len, IfOk};
ghost use Rattle.dpc_model.specs.Limits.{most_input};
ghost use Rattle.journal_commands.specs.Endings.{IsEnding, PastLimits};
ghost use Rattle.law_fit.specs.Fits.{CanRun};
ghost use Rattle.picture_commands.specs.Endings.{drawn_as, drawn_run, run_ending, IsStopped, picture_ending};
ghost use Rattle.picture_watch.specs.Seen.{HasDrawn};
ghost use Rattle.world_model.specs.Schedules.{lockstep_journal};
ghost use Rattle.world_model.specs.Worlds.{excess};

use crate::form::PictureForm;
use diagram_reader::faults::ScriptFault;
use diagram_reader::read_script;
use dpc_lists::faults::NoMemory;
use dpc_model::plans::Plan;
use dpc_model::scripts::Script;
use journal_commands::outcome::Outcome;
use lockstep::faults::RunFault;
use lockstep::lock::run_watched;
use picture_model::columns::Column;
use picture_svg::picture_svg;
use picture_text::picture_text;
use picture_watch::watch::Picturing;
use status_lines::{fault_line, too_long_line};
use std::alloc::Global;
use world_core::world::World;

/// What `picture` comes to of the script in an input of at most 64 MiB, in a form. The input is let go before the run.
pub fn answer(alloc: Global, form: PictureForm, input: Vec<u8>) -> Result<Outcome, NoMemory>
    requires { vec_len input ≤ most_input }
    ensures { IfOk result (IsEnding (picture_ending form input.items)) }
{
    let script = read_script(alloc, input.as_slice());
    drop(input);
    match script {
        Ok(script) => run_answer(alloc, form, script),
        Err(ScriptFault::NoMemory) => Err(NoMemory),
        Err(ScriptFault::Refused(fault)) => Ok(Outcome::Refused(fault_line(alloc, fault)?)),
    }
}

/// What it comes to of its one-thread run.
fn run_answer(alloc: Global, form: PictureForm, script: Script) -> Result<Outcome, NoMemory>
    requires { CanRun script.plan }
    ensures { IfOk result (IsEnding (run_ending form script (excess script.plan (lockstep_journal script)))) }
{
    let settle = script.settle;
    let mut picturing = Picturing::new(alloc, &script)?;
    let world = match run_watched(alloc, script, &mut picturing) {
        Ok(world) => world,
        Err(fault) => return stopped(alloc, fault),
    };
    let text = run_text(alloc, form, &world, picturing)?;
    if settle && !world.settled() {
        Ok(Outcome::Open(text))
    } else {
        Ok(Outcome::Text(text))
    }
}

/// The line on a run that would pass a limit, with what it would reach.
pub(crate) fn past_limits(alloc: Global, envelopes: u64, items: u64) -> Result<Outcome, NoMemory>
    ensures { IfOk result (IsEnding (PastLimits (record { envelopes = envelopes; items = items }))) }
{
    Ok(Outcome::TooLong(too_long_line(alloc, envelopes, items)?))
}

/// The line on a run that stopped, where that tells of a limit.
fn stopped(alloc: Global, fault: RunFault) -> Result<Outcome, NoMemory>
    ensures { IfOk result (λ outcome. IsStopped fault outcome) }
{
    match fault {
        RunFault::NoMemory => Err(NoMemory),
        RunFault::TooLong { envelopes, items } => past_limits(alloc, envelopes, items),
    }
}

/// The picture of a run that was watched.
pub(crate) fn run_text(
    alloc: Global,
    form: PictureForm,
    world: &World,
    picturing: Picturing,
) -> Result<Vec<u8>, NoMemory>
    requires fresh { world.now.spent ≡ false }
    requires seen { HasDrawn world.now picturing }
    ensures { IfOk result (λ text. text.items ≡ drawn_run form picturing.losses.items world.now.plan world.now.events) }
{
    let columns = picturing.finish(alloc, world)?;
    drawn_text(alloc, form, world.plan(), columns.as_slice())
}

/// Columns in a form.
fn drawn_text(
    alloc: Global,
    form: PictureForm,
    plan: &Plan,
    columns: &[Column],
) -> Result<Vec<u8>, NoMemory>
    ensures { IfOk result (λ text. text.items ≡ drawn_as form plan.now columns.now) }
{
    match form {
        PictureForm::Svg => picture_svg(alloc, plan, columns),
        PictureForm::Text => picture_text(alloc, plan, columns),
    }
}
