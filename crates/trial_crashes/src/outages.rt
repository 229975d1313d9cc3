//! Scripts with directives put in, by which nodes crash and restart.
ghost use Rattle.ideal_run.specs.IdealPlans.{IsIdealPlan};
ghost use Rattle.law_fit.specs.Fits.{CanRun};

use crate::judging::{Tally, judge_all};
use crate::trouble::Trouble;
use dpc_lists::exact::Exact;
use dpc_lists::lists::Listed;
use dpc_model::scripts::{Directive, Phase, Script};
use lockstep::lock::run;
use std::alloc::{AllocError, Global};

/// A node crashes first in one phase, and restarts first in a later one. Phases are counted from 0.
#[derive(Clone, Copy, PartialEq, Eq)]
pub(crate) struct Outage {
    pub node: u64,
    pub crash: usize,
    pub restart: usize,
}

/// The directives of outages in a phase, restarts first, and those of the phase behind them.
fn with_outages(
    alloc: Global,
    phase: &Phase,
    number: usize,
    outages: &[Outage],
) -> Result<Phase, AllocError> {
    let mut directives = Vec::new(alloc);
    for outage in outages.iter().filter(|outage| outage.restart == number) {
        directives.push(Directive::Restart(outage.node))?;
    }
    for outage in outages.iter().filter(|outage| outage.crash == number) {
        directives.push(Directive::Crash(outage.node))?;
    }
    directives.extend_from_slice(phase.directives.as_slice())?;
    Ok(Phase {
        directives: Listed::from_vec(directives),
        now: phase.now,
    })
}

/// The phases of a script with outages put in.
fn phases_with(
    alloc: Global,
    phases: &[Phase],
    outages: &[Outage],
) -> Result<Listed<Phase>, AllocError> {
    let mut changed = Vec::new(alloc);
    for (number, phase) in phases.iter().enumerate() {
        changed.push(with_outages(alloc, phase, number, outages)?)?;
    }
    Ok(Listed::from_vec(changed))
}

/// Runs a script with outages put in, and judges what its clients took. The answer is whether all are settled.
pub(crate) fn run_with(
    alloc: Global,
    script: &Script,
    outages: &[Outage],
    tally: &mut Tally,
) -> Result<bool, Trouble>
    requires run { CanRun script.now.plan }
    requires ideal { IsIdealPlan script.now.plan }
{
    let changed = Script {
        plan: script.plan.copy(alloc)?,
        phases: phases_with(alloc, script.phases.as_slice(), outages)?,
        settle: script.settle,
    };
    let world = run(alloc, changed)?;
    judge_all(alloc, &script.plan, &world, tally)?;
    Ok(world.settled())
}

/// What was found of runs with outages.
#[derive(Clone, Copy, PartialEq, Eq)]
pub(crate) struct Outcomes {
    pub tally: Tally,
    pub runs: u64,
    /// How many runs settled.
    pub settled: u64,
}

impl Outcomes {
    /// Nothing was run.
    pub fn new() -> Outcomes {
        Outcomes {
            tally: Tally::new(),
            runs: 0,
            settled: 0,
        }
    }

    /// One more run, with these outages.
    pub fn add(&mut self, alloc: Global, script: &Script, outages: &[Outage]) -> Result<(), Trouble>
        requires run { CanRun script.now.plan }
        requires ideal { IsIdealPlan script.now.plan }
    {
        if run_with(alloc, script, outages, &mut self.tally)? {
            self.settled = self.settled.saturating_add(1);
        }
        self.runs = self.runs.saturating_add(1);
        Ok(())
    }
}
