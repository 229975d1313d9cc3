//! Disks that become saved points of nodes, and come back.
ghost use Rattle.std.specs.Prelude.{◌≡◌, ◌≤◌, ◌<◌, ◌+◌, ◌^◌, ℕ, [], length, vec_len, vec_capacity, All, IsErrOf, OnOk};
ghost use Rattle.std.specs.List.{AllZip};
ghost use Rattle.dpc_model.specs.Actors.{role_of, nodes_of};
ghost use Rattle.dpc_model.specs.declared.actors.Role.TheVariants.{Node as IsNode};
ghost use Rattle.phase_saves.specs.Nodes.{HasBegun};
ghost use Rattle.phase_saves.specs.declared.kept.SaveStop.TheVariants.{DiskFault};
ghost use Rattle.saved_runs.specs.Disks.{IsBack, total_faults, all_disks};
ghost use Rattle.saved_runs.specs.Nodes.{IsNodeOf, IsNumbered};

use disk_model::disk::Disk;
use dpc_model::actors::{Role, role_of};
use dpc_model::plans::Plan;
use phase_saves::kept::SaveStop;
use phase_saves::node::SavingNode;

/// The fragment of an actor that is a node.
fn frag_of(plan: &Plan, actor: u64) -> u64
    ensures { (frag replica : ℕ) → role_of plan.now actor ≡ IsNode frag replica → result ≡ frag }
{
    match role_of(plan, actor) {
        Role::Node(frag, _) => frag,
        _ => 0,
    }
}

/// The disks, one for each node in order, become nodes that saved nothing yet, the last one first. Where one is
/// stopped, its disk and those in front of it stay.
pub(crate) fn make_points<D: Disk>(
    plan: &Plan,
    room: u64,
    disks: &mut Vec<D>,
    nodes: &mut Vec<SavingNode<D>>,
) -> Result<(), SaveStop>
    requires roomy { 64 ≤ room }
    requires short { room ≤ 2 ^ 32 }
    requires fits { All (λ disk. room + room ≤ D.extent disk) disks.old.items }
    requires many { length disks.old.items ≡ length (nodes_of plan.now) }
    requires none { nodes.old.items ≡ [] }
    requires space { vec_len disks.old ≤ vec_capacity nodes.old }
    ensures back { AllZip (IsBack D.Disk) disks.old.items (all_disks disks.new.items nodes.new.items) }
    ensures space { vec_len disks.new + vec_len nodes.new ≤ vec_capacity disks.new }
    ensures gone { OnOk result (disks.new.items ≡ []) }
    ensures many { OnOk result (length nodes.new.items ≡ length disks.old.items) }
    ensures places { All (IsNodeOf plan.now room) nodes.new.items }
    ensures numbered { OnOk result (IsNumbered (length plan.now.sources + length disks.old.items) nodes.new.items) }
    ensures begun { All D.is_honest disks.old.items → All HasBegun nodes.new.items }
    ensures fault { IsErrOf result DiskFault → total_faults D.faults disks.old.items < total_faults D.faults (all_disks disks.new.items nodes.new.items) }
{
    let first = plan.sources.len() as u64;
    let Some(mut actor) = first.checked_add(disks.len() as u64) else {
        return Err(SaveStop::NoMemory);
    };
    while let Some(disk) = disks.pop() {
        actor -= 1;
        match SavingNode::new(actor, frag_of(plan, actor), disk, room) {
            Ok(node) => nodes.push_reserved(node),
            Err((stop, disk)) => {
                disks.push_reserved(disk);
                return Err(stop);
            }
        }
    }
    Ok(())
}

/// The disks of nodes come back behind those that are there.
pub(crate) fn give_back<D: Disk>(nodes: &mut Vec<SavingNode<D>>, disks: &mut Vec<D>)
    requires { vec_len disks.old + vec_len nodes.old ≤ vec_capacity disks.old }
    ensures { disks.new.items ≡ all_disks disks.old.items nodes.old.items }
{
    while let Some(node) = nodes.pop() {
        disks.push_reserved(node.point.into_disk());
    }
}
