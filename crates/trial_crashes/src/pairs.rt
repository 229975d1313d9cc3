//! Outages of nodes, one by one and two by two.
ghost use Rattle.ideal_run.specs.IdealPlans.{IsIdealPlan};
ghost use Rattle.law_fit.specs.Fits.{CanRun};

use crate::outages::{Outage, Outcomes};
use crate::trouble::Trouble;
use dpc_model::scripts::Script;
use std::alloc::{AllocError, Global};

/// How two outages lie to one another.
#[derive(Clone, Copy, PartialEq, Eq)]
pub(crate) enum Pairing {
    /// They are of one node, one behind the other.
    OfOne,
    /// They are of two nodes, of which one is up again before the other one crashes, or in that phase.
    OfTwoInTurn,
    /// They are of two nodes, which are down at the same time.
    OfTwoAtOnce,
}

/// The outages of nodes within the first so many phases, of each node in order of phases.
pub(crate) fn all_outages(
    alloc: Global,
    nodes: &[u32],
    phases: usize,
) -> Result<Vec<Outage>, AllocError> {
    let mut outages = Vec::new(alloc);
    for node in nodes {
        for crash in 0..phases {
            for restart in crash + 1..phases {
                outages.push(Outage {
                    node: u64::from(*node),
                    crash,
                    restart,
                })?;
            }
        }
    }
    Ok(outages)
}

/// How two outages lie to one another, the second no earlier in the list of all. None where a node would crash that is down.
fn pairing_of(first: Outage, second: Outage) -> Option<Pairing> {
    if first.restart <= second.crash {
        if first.node == second.node {
            Some(Pairing::OfOne)
        } else {
            Some(Pairing::OfTwoInTurn)
        }
    } else if first.node == second.node {
        None
    } else if second.restart <= first.crash {
        Some(Pairing::OfTwoInTurn)
    } else {
        Some(Pairing::OfTwoAtOnce)
    }
}

/// What is found where a node crashes in one phase, and restarts in the next one.
pub(crate) fn try_short(
    alloc: Global,
    script: &Script,
    outages: &[Outage],
) -> Result<Outcomes, Trouble>
    requires run { CanRun script.now.plan }
    requires ideal { IsIdealPlan script.now.plan }
{
    let mut outcomes = Outcomes::new();
    for outage in outages {
        if outage.restart.saturating_sub(1) == outage.crash {
            outcomes.add(alloc, script, &[*outage])?;
        }
    }
    Ok(outcomes)
}

/// What is found of the pairs that lie so to one another.
pub(crate) fn try_pairs(
    alloc: Global,
    script: &Script,
    outages: &[Outage],
    wanted: Pairing,
) -> Result<Outcomes, Trouble>
    requires run { CanRun script.now.plan }
    requires ideal { IsIdealPlan script.now.plan }
{
    let mut outcomes = Outcomes::new();
    for (place, first) in outages.iter().enumerate() {
        for second in &outages[place..] {
            if pairing_of(*first, *second) == Some(wanted) {
                outcomes.add(alloc, script, &[*first, *second])?;
            }
        }
    }
    Ok(outcomes)
}
