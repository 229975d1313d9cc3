//! A node that saves its snapshots.
ghost use Rattle.std.specs.Prelude.{◌≡◌, ◌<◌, ◌≤◌, ◌+◌, ◌^◌, ℕ, false, length, IsErrOf, IsNone, Some, IfOk, IfErr, OnOk};
ghost use Rattle.dpc_model.specs.declared.plans.Plan.{Plan as PlanValue};
ghost use Rattle.law_saves.specs.Typed.{IsTyped};
ghost use Rattle.node_core.specs.Standing.{StandsForNode};
ghost use Rattle.node_core.specs.Stepping.{IsSound};
ghost use Rattle.node_model.specs.Fitting.{IsFit};
ghost use Rattle.node_model.specs.Nodes.{Home, PlainNode, spec_of};
ghost use Rattle.node_model.specs.NodeSteps.{snapshot};
ghost use Rattle.pipeline.specs.Recovery.{StandsForSnapshot};
ghost use Rattle.saved_point.specs.Points.{disk_in, faults_in, room_in, IsResting};
ghost use Rattle.saved_slots.specs.declared.fault.SaveFault.TheVariants.{Full, DiskFault as Failed};
ghost use Rattle.snapshot_form.specs.Bytes.{snapshot_bytes};
ghost use Rattle.snapshot_form.specs.Savable.{IsSavable};
ghost use Rattle.phase_saves.specs.Nodes.{Went, HasBegun, IsSame, Saves};
ghost use Rattle.phase_saves.specs.declared.kept.SaveStop.TheVariants.{DiskFault};

use crate::kept::{LastSave, SaveStop};
use disk_model::disk::Disk;
use node_core::node::Node;
use pipeline::snapshots::Snapshot;
use saved_point::point::SavedPoint;
use saved_slots::fault::SaveFault;
use snapshot_types::numbers_fit;
use std::alloc::Global;
use world_core::world::World;

/// An actor that is a node of a fragment, the snapshot that it saved last, and how that went.
#[derive(Drop)]
pub struct SavingNode<D: Disk> {
    pub actor: u64,
    pub frag: u64,
    pub point: SavedPoint<D>,
    pub last: LastSave,
}

/// The snapshot of a node, with numbers of their types.
fn snapshot_of(alloc: Global, node: &Node) -> Result<Snapshot, SaveStop>
    requires sound { IsSound node.now }
    requires fresh { node.now.spent ≡ false }
    ensures stands { IfOk result (λ s. (home : Home) (p : PlainNode) → StandsForNode home node.now p → IsFit home p
        → StandsForSnapshot (spec_of home).ops home.plan.width s (snapshot home p)) }
    ensures typed { IfOk result (λ s. IsTyped s) }
    ensures stop { IsErrOf result DiskFault → ⊥ }
{
    let Ok(snapshot) = node.snapshot(alloc) else {
        return Err(SaveStop::NoMemory);
    };
    numbers_fit(&snapshot);
    Ok(snapshot)
}

/// What stops a node, `None` where the snapshot was too long. A point that was stopped is left alone, so `Reopen` and
/// `Broken` do not come.
fn stop_of(fault: SaveFault) -> Option<SaveStop>
    ensures full { IsNone result → (need : ℕ) × (room : ℕ) × (fault ≡ Full need room) }
    ensures disk { result ≡ Some DiskFault → fault ≡ Failed }
{
    match fault {
        SaveFault::Full { .. } => None,
        SaveFault::DiskFault => Some(SaveStop::DiskFault),
        _ => Some(SaveStop::NoMemory),
    }
}

/// What refuses a point. `Broken` comes where a disk does not keep to the model.
pub fn refusal_of(fault: SaveFault) -> SaveStop
    ensures { result ≡ DiskFault → fault ≡ Failed }
{
    match fault {
        SaveFault::DiskFault => SaveStop::DiskFault,
        _ => SaveStop::NoMemory,
    }
}

impl<D: Disk> SavingNode<D> {
    /// A node that saved nothing yet: nothing is kept on its disk any more. `room` is how many bytes a slot has, from 64
    /// to 2^32; the disk has two of them. An error is `DiskFault` or `NoMemory`, and gives the disk back.
    pub fn new(actor: u64, frag: u64, disk: D, room: u64) -> Result<SavingNode<D>, (SaveStop, D)>
        requires roomy { 64 ≤ room }
        requires short { room ≤ 2 ^ 32 }
        requires fits { room + room ≤ D.extent disk }
        ensures actor { IfOk result (λ n. n.actor ≡ actor) }
        ensures frag { IfOk result (λ n. n.frag ≡ frag) }
        ensures room { IfOk result (λ n. room_in n.point ≡ room) }
        ensures begun { D.is_honest disk → IfOk result (λ n. HasBegun n) }
        ensures extent { IfOk result (λ n. D.extent (disk_in n.point) ≡ D.extent disk) }
        ensures extent_err { IfErr result (λ refused. D.extent refused.1 ≡ D.extent disk) }
        ensures faults { IfOk result (λ n. D.faults disk ≤ faults_in n.point) }
        ensures faults_err { IfErr result (λ refused. D.faults disk ≤ D.faults refused.1) }
        ensures fault { IfErr result (λ refused. refused.0 ≡ DiskFault → D.faults disk < D.faults refused.1) }
        ensures honest { D.is_honest disk → IfErr result (λ refused. D.is_honest refused.1) }
    {
        match SavedPoint::make(disk, room) {
            Ok(point) => Ok(SavingNode {
                actor,
                frag,
                point,
                last: LastSave::Never,
            }),
            Err((fault, disk)) => Err((refusal_of(fault), disk)),
        }
    }

    /// Saves a snapshot, where a slot has room for it. An error is `DiskFault` or `NoMemory`; a spent number, 2^64 - 1,
    /// counts as want of memory.
    fn put(&mut self, alloc: Global, snapshot: &Snapshot) -> Result<(), SaveStop>
        ensures same { IsSame self.old self.new }
        ensures rests { IsResting self.old.point → OnOk result (IsResting self.new.point) }
        ensures went { (plan : PlanValue) → IsResting self.old.point
            → (length (snapshot_bytes snapshot.now) < 2 ^ 32 → IsSavable plan self.old.frag snapshot.now)
            → OnOk result (Went plan self.new snapshot.now self.new.last) }
        ensures fault { IsErrOf result DiskFault → faults_in self.old.point < faults_in self.new.point }
    {
        if self.point.number() == u64::MAX {
            return Err(SaveStop::NoMemory);
        }
        match self.point.save(alloc, snapshot) {
            Ok(()) => {
                self.last = LastSave::Kept;
                Ok(())
            }
            Err(fault) => {
                if let Some(stop) = stop_of(fault) {
                    return Err(stop);
                }
                self.last = LastSave::Full;
                Ok(())
            }
        }
    }

    /// Saves the node's snapshot, where it is up and does not recover. An error is `DiskFault` or `NoMemory`.
    pub fn save(&mut self, alloc: Global, world: &World) -> Result<(), SaveStop>
        requires { world.now.spent ≡ false }
        ensures same { IsSame self.old self.new }
        ensures saves { OnOk result (Saves world.now self.old self.new) }
        ensures fault { IsErrOf result DiskFault → faults_in self.old.point < faults_in self.new.point }
    {
        let Some(node) = world.node(self.actor) else {
            return Ok(());
        };
        if node.recovering() {
            return Ok(());
        }
        let snapshot = snapshot_of(alloc, node)?;
        self.put(alloc, &snapshot)?;
        Ok(())
    }
}
