//! What is written of a script.
ghost use Rattle.std.specs.Prelude.{◌≡◌, false, IfOk};
ghost use Rattle.ideal_run.specs.IdealPlans.{IsIdealPlan};
ghost use Rattle.law_fit.specs.Fits.{CanRun};
ghost use Rattle.client_reports.specs.Json.{HasPlainNames};
ghost use Rattle.world_core.specs.Runs.{world_of};
ghost use Rattle.borealis_top.specs.Ends.{IsAnswer, report_as};
ghost use Rattle.borealis_top.specs.declared.command.Reading.TheVariants as reading;

use crate::command::{Form, Reading};
use client_reports::json::report_json;
use client_reports::text::{report_short, report_text};
use diagram_printer::print_script;
use dpc_lists::faults::NoMemory;
use dpc_model::plans::Plan;
use dpc_model::scripts::Script;
use journal_commands::framed_report;
use lockstep::faults::RunFault;
use lockstep::lock::run;
use status_lines::too_long_line;
use std::alloc::Global;
use world_core::world::World;

/// What `check` writes of a right script.
const RIGHT: &[u8] = b"ok\n";

/// What is to be written.
#[derive(Drop)]
pub enum Answer {
    /// This text.
    Text(Vec<u8>),
    /// This report of a run, and that a client is not settled after all quiet phases.
    Open(Vec<u8>),
    /// The failure-free streams of this plan, which are written as they are milled.
    Ideal(Plan),
    /// The line on a run that would pass a limit.
    TooLong(Vec<u8>),
}

/// What is to be written of a script.
pub(crate) fn answer_script(
    alloc: Global,
    reading: Reading,
    script: Script,
) -> Result<Answer, NoMemory>
    requires ideal { IsIdealPlan script.plan }
    requires run { CanRun script.plan }
    requires names { HasPlainNames script.plan }
    ensures { IfOk result (λ answer. IsAnswer reading script answer) }
{
    match reading {
        Reading::Run(form) => run_answer(alloc, form, script),
        Reading::Check => Ok(Answer::Text(Vec::from_slice(alloc, RIGHT)?)),
        Reading::Print => Ok(Answer::Text(print_script(alloc, &script)?)),
        Reading::Ideal => Ok(Answer::Ideal(script.plan)),
    }
}

/// The report of the one-thread run of a script, or that it would pass a limit.
fn run_answer(alloc: Global, form: Form, script: Script) -> Result<Answer, NoMemory>
    requires run { CanRun script.plan }
    requires names { HasPlainNames script.plan }
    ensures { IfOk result (λ answer. IsAnswer (reading.Run form) script answer) }
{
    let settle = script.settle;
    let world = match run(alloc, script) {
        Ok(world) => world,
        Err(RunFault::NoMemory) => return Err(NoMemory),
        Err(RunFault::TooLong { envelopes, items }) => {
            return Ok(Answer::TooLong(too_long_line(alloc, envelopes, items)?));
        }
    };
    let text = report(alloc, form, &world)?;
    if settle && !world.settled() {
        Ok(Answer::Open(text))
    } else {
        Ok(Answer::Text(text))
    }
}

/// The report of a world.
fn report(alloc: Global, form: Form, world: &World) -> Result<Vec<u8>, NoMemory>
    requires live { world.now.spent ≡ false }
    requires run { CanRun world.now.plan }
    requires names { HasPlainNames world.now.plan }
    ensures { IfOk result (λ text. text.items ≡ report_as form (world_of world.now)) }
{
    match form {
        Form::Text => report_text(alloc, world.plan(), world.clients()),
        Form::Short => report_short(alloc, world.plan(), world.clients()),
        Form::Json => report_json(alloc, world.plan(), world.clients()),
        Form::Frames => framed_report(alloc, world),
    }
}
