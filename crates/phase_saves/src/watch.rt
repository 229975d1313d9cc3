//! The watcher that lets nodes save at the ends of phases.
ghost use Rattle.std.specs.Prelude.{◌≡◌, false, IsErrOf, OnOk};
ghost use Rattle.std.specs.List.{AllZip};
ghost use Rattle.dpc_model.specs.declared.plans.Plan.{Plan as PlanValue};
ghost use Rattle.law_saves.specs.Saves.{ends_phase};
ghost use Rattle.run_watchers.specs.Watching.{unstarted};
ghost use Rattle.phase_saves.specs.Nodes.{IsSame, Saves, SomeRose};
ghost use Rattle.phase_saves.specs.Runs.{HasStayed, HasSeen, HasDone, HaveSaved};
ghost use Rattle.phase_saves.specs.declared.kept.SaveStop.TheVariants.{DiskFault};

use crate::kept::SaveStop;
use crate::node::SavingNode;
use disk_model::disk::Disk;
use dpc_lists::faults::NoMemory;
use dpc_model::messages::Event;
use run_watchers::watchers::Watcher;
use std::alloc::Global;
use world_core::world::World;

/// The nodes that save; and whether a disk failed, so that none saves any more.
#[derive(Drop)]
pub struct PhaseSaves<D: Disk> {
    pub nodes: Vec<SavingNode<D>>,
    pub failed: bool,
}

/// Whether a phase ends with this event: the next one opens.
fn ends_phase(event: Event) -> bool
    ensures { result ≡ ends_phase event }
{
    match event {
        Event::Phase(number) => number > 1,
        _ => false,
    }
}

/// Each node saves, until one is stopped.
fn save_each<D: Disk>(
    nodes: &mut Vec<SavingNode<D>>,
    alloc: Global,
    world: &World,
) -> Result<(), SaveStop>
    requires { world.now.spent ≡ false }
    ensures same { AllZip IsSame nodes.old.items nodes.new.items }
    ensures saves { OnOk result (AllZip (Saves world.now) nodes.old.items nodes.new.items) }
    ensures fault { IsErrOf result DiskFault → SomeRose nodes.old.items nodes.new.items }
{
    for i in 0..nodes.len() {
        nodes[i].save(alloc, world)?;
    }
    Ok(())
}

impl<D: Disk> PhaseSaves<D> {
    /// Before the first event.
    pub fn new(nodes: Vec<SavingNode<D>>) -> PhaseSaves<D>
        ensures nodes { result.nodes ≡ nodes }
        ensures well { result.failed ≡ false }
        ensures stayed { HasStayed result result }
        ensures seen { (plan : PlanValue) → HasSeen result (unstarted plan) result }
    {
        PhaseSaves {
            nodes,
            failed: false,
        }
    }

    /// Each node that is up and does not recover saves its snapshot. An error is want of memory alone; where a disk
    /// fails, that is noted.
    fn save_all(&mut self, alloc: Global, world: &World) -> Result<(), NoMemory>
        requires fresh { world.now.spent ≡ false }
        requires well { self.old.failed ≡ false }
        ensures stayed { HasStayed self.old self.new }
        ensures saved { OnOk result (HaveSaved world.now self.old self.new) }
    {
        match save_each(&mut self.nodes, alloc, world) {
            Ok(()) => Ok(()),
            Err(SaveStop::NoMemory) => Err(NoMemory),
            Err(SaveStop::DiskFault) => {
                self.failed = true;
                Ok(())
            }
        }
    }

    /// The run is over: with it its last phase ends, where there was one.
    pub fn end(&mut self, alloc: Global, world: &World) -> Result<(), NoMemory>
        requires { world.now.spent ≡ false }
        ensures stayed { (start : _) → HasStayed start self.old → HasStayed start self.new }
        ensures done { (start : _) → HasSeen start world.now self.old → OnOk result (HasDone start world.now self.new) }
    {
        if self.failed {
            return Ok(());
        }
        if world.journal().is_empty() {
            return Ok(());
        }
        self.save_all(alloc, world)
    }
}

impl<D: Disk> Watcher for PhaseSaves<D> {
    ghost saw = { λ start run now. HasSeen start run now };

    ghost stays = { λ start now. HasStayed start now };

    fn see(&mut self, alloc: Global, world: &World, event: Event) -> Result<(), NoMemory> {
        if self.failed {
            return Ok(());
        }
        if !ends_phase(event) {
            return Ok(());
        }
        self.save_all(alloc, world)?;
        Ok(())
    }
}
