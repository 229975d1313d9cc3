//! The run of a script with saves.
ghost use Rattle.std.specs.Prelude.{◌≡◌, ◌≤◌, ◌<◌, ◌+◌, ◌^◌, ℕ, [], false, map, length, vec_len, vec_capacity, All, Some, None, Err, IsErrOf, IfOk};
ghost use Rattle.std.specs.List.{AllZip};
ghost use Rattle.dpc_model.specs.Actors.{nodes_of};
ghost use Rattle.law_fit.specs.Fits.{CanRun};
ghost use Rattle.lockstep.specs.Locking.{SettlesWhere};
ghost use Rattle.phase_saves.specs.Nodes.{HasBegun, SomeRose};
ghost use Rattle.phase_saves.specs.Runs.{HasStayed, HasSeen, IsDone};
ghost use Rattle.run_watchers.specs.Watching.{unstarted};
ghost use Rattle.script_rules.specs.Checking.{IsChecked};
ghost use Rattle.world_model.specs.Schedules.{lockstep_journal};
ghost use Rattle.world_model.specs.Worlds.{excess};
ghost use Rattle.saved_runs.specs.Disks.{IsBack, total_faults, all_disks};
ghost use Rattle.saved_runs.specs.Nodes.{IsNodeOf, IsNumbered, past_nodes};
ghost use Rattle.saved_runs.specs.Told.{AreSaved};
ghost use Rattle.saved_runs.specs.declared.faults.SavesFault.TheVariants.{TooLong, DiskFault};

use crate::faults::SavesFault;
use crate::points::{give_back, make_points};
use crate::saved::Saved;
use crate::telling::tell_all;
use disk_model::disk::Disk;
use dpc_model::scripts::Script;
use lockstep::lock::run_watched;
use phase_saves::watch::PhaseSaves;
use std::alloc::Global;
use world_core::world::World;

/// The run, with what nodes save meanwhile and at its end.
fn saving_run<D: Disk + Drop>(
    alloc: Global,
    script: Script,
    saves: &mut PhaseSaves<D>,
) -> Result<World, SavesFault>
    requires can { CanRun script.plan }
    requires well { saves.old.failed ≡ false }
    requires stayed { HasStayed saves.old saves.old }
    requires seen { HasSeen saves.old (unstarted script.plan) saves.old }
    ensures is { IfOk result (λ w. w ≡ record { plan = script.plan; events = lockstep_journal script; spent = false }) }
    ensures within { IfOk result (λ w. excess script.plan (lockstep_journal script) ≡ None) }
    ensures settles { IfOk result (λ w. SettlesWhere script w) }
    ensures done { IfOk result (λ w. AllZip (IsDone w) saves.old.nodes.items saves.new.nodes.items) }
    ensures stayed { HasStayed saves.old saves.new }
    ensures long { (envelopes items : ℕ) → result ≡ Err (TooLong envelopes items)
        → excess script.plan (lockstep_journal script) ≡ Some (record { envelopes = envelopes; items = items }) }
    ensures fault { IsErrOf result DiskFault → SomeRose saves.old.nodes.items saves.new.nodes.items }
{
    let run = run_watched(alloc, script, saves);
    if saves.failed {
        return Err(SavesFault::DiskFault);
    }
    let world = run?;
    saves.end(alloc, &world)?;
    if saves.failed {
        return Err(SavesFault::DiskFault);
    }
    Ok(world)
}

/// The run, and what each node has saved in it. Nodes that are told of are gone, and their disks are back.
fn run_and_tell<D: Disk + Drop>(
    alloc: Global,
    script: Script,
    room: u64,
    saves: &mut PhaseSaves<D>,
    disks: &mut Vec<D>,
) -> Result<(World, Vec<Saved>), SavesFault>
    requires can { CanRun script.plan }
    requires well { saves.old.failed ≡ false }
    requires stayed { HasStayed saves.old saves.old }
    requires seen { HasSeen saves.old (unstarted script.plan) saves.old }
    requires places { All (IsNodeOf script.plan room) saves.old.nodes.items }
    requires numbered { IsNumbered (past_nodes script.plan) saves.old.nodes.items }
    requires many { length saves.old.nodes.items ≡ length (nodes_of script.plan) }
    requires none { disks.old.items ≡ [] }
    requires space { vec_len saves.old.nodes ≤ vec_capacity disks.old }
    ensures is { IfOk result (λ made. made.0 ≡ record { plan = script.plan; events = lockstep_journal script; spent = false }) }
    ensures within { IfOk result (λ made. excess script.plan (lockstep_journal script) ≡ None) }
    ensures settles { IfOk result (λ made. SettlesWhere script made.0) }
    ensures saved { IsChecked script → All HasBegun saves.old.nodes.items
        → IfOk result (λ made. AreSaved script.plan room (lockstep_journal script) (map D.seen (all_disks disks.new.items saves.new.nodes.items)) made.1.items) }
    ensures back { AllZip (IsBack D.Disk) (all_disks disks.old.items saves.old.nodes.items) (all_disks disks.new.items saves.new.nodes.items) }
    ensures space { vec_len disks.new + vec_len saves.new.nodes ≤ vec_capacity disks.new }
    ensures long { (envelopes items : ℕ) → result ≡ Err (TooLong envelopes items)
        → excess script.plan (lockstep_journal script) ≡ Some (record { envelopes = envelopes; items = items }) }
    ensures fault { IsErrOf result DiskFault → total_faults D.faults (all_disks disks.old.items saves.old.nodes.items) < total_faults D.faults (all_disks disks.new.items saves.new.nodes.items) }
{
    let world = saving_run(alloc, script, saves)?;
    let told = tell_all(alloc, world.plan(), room, &mut saves.nodes, disks)?;
    Ok((world, told))
}

/// Runs a script by one thread, where at the end of each phase each node that is up and does not recover saves its
/// snapshot to a disk of its own: the world at the end, and what each node has saved, in order. Nothing is kept on the
/// disks before; there is one for each node, in order, and each has room for two slots of `room` bytes. Whatever comes,
/// they are all there again, in their order.
pub fn save_phases<D: Disk + Drop>(
    alloc: Global,
    script: Script,
    room: u64,
    disks: &mut Vec<D>,
) -> Result<(World, Vec<Saved>), SavesFault>
    requires can { CanRun script.plan }
    requires roomy { 64 ≤ room }
    requires short { room ≤ 2 ^ 32 }
    requires fits { All (λ disk. room + room ≤ D.extent disk) disks.old.items }
    requires many { length disks.old.items ≡ length (nodes_of script.plan) }
    ensures is { IfOk result (λ made. made.0 ≡ record { plan = script.plan; events = lockstep_journal script; spent = false }) }
    ensures within { IfOk result (λ made. excess script.plan (lockstep_journal script) ≡ None) }
    ensures settles { IfOk result (λ made. SettlesWhere script made.0) }
    // What is told of each node is so of the last snapshot that it could save, and its disk has it.
    ensures saved { IsChecked script → All D.is_honest disks.old.items
        → IfOk result (λ made. AreSaved script.plan room (lockstep_journal script) (map D.seen disks.new.items) made.1.items) }
    ensures back { AllZip (IsBack D.Disk) disks.old.items disks.new.items }
    ensures long { (envelopes items : ℕ) → result ≡ Err (TooLong envelopes items)
        → excess script.plan (lockstep_journal script) ≡ Some (record { envelopes = envelopes; items = items }) }
    ensures fault { IsErrOf result DiskFault → total_faults D.faults disks.old.items < total_faults D.faults disks.new.items }
{
    let mut nodes = Vec::with_capacity(alloc, disks.len())?;
    if let Err(stop) = make_points(&script.plan, room, disks, &mut nodes) {
        give_back(&mut nodes, disks);
        return Err(SavesFault::from(stop));
    }
    let mut saves = PhaseSaves::new(nodes);
    let result = run_and_tell(alloc, script, room, &mut saves, disks);
    give_back(&mut saves.nodes, disks);
    result
}
