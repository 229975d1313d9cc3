//! What nodes have saved, told of their disks.
ghost use Rattle.std.specs.Prelude.{◌≡◌, ◌≤◌, ◌<◌, ◌+◌, ℕ, List, [], map, length, vec_len, vec_capacity, All, IsErrOf, IfOk, Option};
ghost use Rattle.std.specs.List.{AllZip};
ghost use Rattle.dpc_model.specs.Actors.{nodes_of};
ghost use Rattle.dpc_model.specs.declared.messages.Event.{Event};
ghost use Rattle.law_fit.specs.Fits.{CanRun};
ghost use Rattle.node_model.specs.Mails.{Snap};
ghost use Rattle.saved_point.specs.Points.{disk_in, faults_in, IsResting};
ghost use Rattle.phase_saves.specs.Nodes.{Agrees};
ghost use Rattle.phase_saves.specs.declared.kept.SaveStop.TheVariants.{DiskFault};
ghost use Rattle.saved_runs.specs.Disks.{IsBack, total_faults, all_disks};
ghost use Rattle.saved_runs.specs.Nodes.{IsNodeOf, IsNumbered, IsReady, past_nodes};
ghost use Rattle.saved_runs.specs.Told.{IsSaved, AreSaved};

use crate::saved::{Saved, saved_of};
use disk_model::disk::Disk;
use dpc_model::plans::Plan;
use phase_saves::kept::SaveStop;
use phase_saves::node::{SavingNode, refusal_of};
use saved_point::point::SavedPoint;
use std::alloc::Global;

/// Opens a node's disk again, and tells what it has.
fn open_again<D: Disk>(
    alloc: Global,
    plan: &Plan,
    room: u64,
    node: SavingNode<D>,
) -> (Result<Saved, SaveStop>, D)
    requires can { CanRun plan.now }
    requires place { IsNodeOf plan.now room node }
    ensures back { IsBack D.Disk (disk_in node.point) result.1 }
    ensures told { (replica : ℕ) (last : Option Snap) → IsResting node.point → Agrees plan.now replica node last
        → IfOk result.0 (IsSaved plan.now room (node.frag, replica) (D.seen result.1) last) }
    ensures fault { IsErrOf result.0 DiskFault → faults_in node.point < D.faults result.1 }
{
    let SavingNode {
        frag,
        point,
        last,
        ..
    } = node;
    match SavedPoint::open(alloc, point.into_disk(), room, plan, frag) {
        Ok((point, snapshot)) => (Ok(saved_of(last, snapshot)), point.into_disk()),
        Err((fault, disk)) => (Err(refusal_of(fault)), disk),
    }
}

/// What each node has saved, the first one first. Those that are told of are gone, and their disks are back.
pub(crate) fn tell_all<D: Disk>(
    alloc: Global,
    plan: &Plan,
    room: u64,
    nodes: &mut Vec<SavingNode<D>>,
    disks: &mut Vec<D>,
) -> Result<Vec<Saved>, SaveStop>
    requires can { CanRun plan.now }
    requires places { All (IsNodeOf plan.now room) nodes.old.items }
    requires none { disks.old.items ≡ [] }
    requires space { vec_len nodes.old ≤ vec_capacity disks.old }
    ensures back { AllZip (IsBack D.Disk) (all_disks disks.old.items nodes.old.items) (all_disks disks.new.items nodes.new.items) }
    ensures space { vec_len disks.new + vec_len nodes.new ≤ vec_capacity disks.new }
    ensures told { (events : List Event) → All (IsReady plan.now events) nodes.old.items → IsNumbered (past_nodes plan.now) nodes.old.items
        → length nodes.old.items ≡ length (nodes_of plan.now) → IfOk result (λ told. AreSaved plan.now room events (map D.seen (all_disks disks.new.items nodes.new.items)) told.items) }
    ensures fault { IsErrOf result DiskFault → total_faults D.faults (all_disks disks.old.items nodes.old.items) < total_faults D.faults (all_disks disks.new.items nodes.new.items) }
{
    let Ok(mut told) = Vec::with_capacity(alloc, nodes.len()) else {
        return Err(SaveStop::NoMemory);
    };
    while let Some(node) = nodes.pop() {
        let (saved, disk) = open_again(alloc, plan, room, node);
        disks.push_reserved(disk);
        told.push_reserved(saved?);
    }
    Ok(told)
}
