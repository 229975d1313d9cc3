//! A script, and the journal of its one-thread run.
ghost use Rattle.std.specs.Prelude.{IfOk};
ghost use Rattle.ideal_run.specs.IdealPlans.{IsIdealPlan};
ghost use Rattle.law_fit.specs.Fits.{CanRun};

use crate::trouble::Trouble;
use diagram_reader::read_script;
use dpc_model::messages::Event;
use dpc_model::scripts::Script;
use lockstep::lock::run;
use std::alloc::Global;

/// The script that a text is.
pub(crate) fn script_in(alloc: Global, text: &str) -> Result<Script, Trouble>
    ensures run { IfOk result (λ script. CanRun script.plan) }
    ensures ideal { IfOk result (λ script. IsIdealPlan script.plan) }
{
    match read_script(alloc, text.as_bytes()) {
        Ok(script) => Ok(script),
        Err(fault) => Err(Trouble::from(fault)),
    }
}

/// The journal of the one-thread run of a script that settles.
pub(crate) fn journal_in(alloc: Global, text: &str) -> Result<Vec<Event>, Trouble> {
    let world = run(alloc, script_in(alloc, text)?)?;
    if !world.settled() {
        return Err(Trouble::Open);
    }
    Ok(world.journal().to_vec(alloc)?)
}
