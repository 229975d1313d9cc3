//! A node that crashes behind each event of a journal in turn.
ghost use Rattle.std.specs.Prelude.{◌≡◌, ◌≤◌, false, length, IfOk};
ghost use Rattle.ideal_run.specs.IdealPlans.{IsIdealPlan};
ghost use Rattle.law_fit.specs.Fits.{CanRun};

use crate::happening::{break_node, happen_all};
use crate::judging::{Tally, judge_all};
use crate::trouble::Trouble;
use dpc_lists::exact::Exact;
use dpc_model::messages::Event;
use dpc_model::plans::Plan;
use std::alloc::Global;
use world_core::world::World;

/// What was found of the runs of a journal in which a node crashes.
#[derive(Clone, Copy, PartialEq, Eq)]
pub(crate) struct Breaks {
    pub tally: Tally,
    /// How many events were left out behind a crash, since they could not come.
    pub left_out: u64,
    /// Behind how many events the first crash stands that makes a client take what it should not.
    pub first: Option<usize>,
}

/// A world, and how many events were left out in it.
#[derive(Drop)]
struct Broken {
    world: World,
    left_out: u64,
}

/// The first so many events of a journal, the crash of a node, its restart where it is to, and the rest of the journal.
fn broken_at(
    alloc: Global,
    plan: &Plan,
    journal: &[Event],
    place: usize,
    node: u32,
    restarts: bool,
) -> Result<Broken, Trouble>
    requires run { CanRun plan.now }
    requires place { place ≤ length journal.now }
    ensures { IfOk result (λ broken. broken.world.spent ≡ false) }
{
    let (before, behind) = journal.split_at(place);
    let mut world = World::new(alloc, plan.copy(alloc)?)?;
    happen_all(alloc, &mut world, before)?;
    break_node(alloc, &mut world, node, restarts)?;
    let left_out = happen_all(alloc, &mut world, behind)?;
    Ok(Broken { world, left_out })
}

impl Breaks {
    /// Nothing was tried.
    fn new() -> Breaks {
        Breaks {
            tally: Tally::new(),
            left_out: 0,
            first: None,
        }
    }

    /// One more crash.
    fn add(
        &mut self,
        alloc: Global,
        plan: &Plan,
        broken: &Broken,
        place: usize,
    ) -> Result<(), Trouble>
        requires ideal { IsIdealPlan plan.now }
        requires live { broken.now.world.spent ≡ false }
    {
        judge_all(alloc, plan, &broken.world, &mut self.tally)?;
        self.left_out = self.left_out.saturating_add(broken.left_out);
        if self.tally.others > 0 && self.first.is_none() {
            self.first = Some(place);
        }
        Ok(())
    }
}

/// What is found where a node crashes behind each event of a journal, and before the first one.
pub(crate) fn break_everywhere(
    alloc: Global,
    plan: &Plan,
    journal: &[Event],
    node: u32,
    restarts: bool,
) -> Result<Breaks, Trouble>
    requires run { CanRun plan.now }
    requires ideal { IsIdealPlan plan.now }
{
    let mut breaks = Breaks::new();
    for place in 0..=journal.len() {
        let broken = broken_at(alloc, plan, journal, place, node, restarts)?;
        breaks.add(alloc, plan, &broken, place)?;
    }
    Ok(breaks)
}
