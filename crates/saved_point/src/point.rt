//! The last snapshot of a node of one fragment, on a disk in two slots.
ghost use Rattle.std.specs.Prelude.{◌≡◌, ◌⊎◌, ◌<◌, ◌≤◌, ◌+◌, ◌^◌, ℕ, length, Some, None, Err, IfOk, IfErr, OnOk, IsErrOf, true, false};
ghost use Rattle.disk_model.specs.Looking.{LeavesNoMore};
ghost use Rattle.dpc_model.specs.Fragments.{AreSoundFrags};
ghost use Rattle.dpc_model.specs.declared.plans.Plan.{Plan as PlanValue};
ghost use Rattle.saved_slots.specs.Faults.{IsStop};
ghost use Rattle.saved_slots.specs.Slots.{number_of, given};
ghost use Rattle.saved_slots.specs.declared.fault.SaveFault.TheVariants.{NoMemory, DiskFault, Full, Broken, Reopen};
ghost use Rattle.snapshot_form.specs.Bytes.{snapshot_bytes};
ghost use Rattle.snapshot_form.specs.Savable.{IsSavable};
ghost use Rattle.saved_point.specs.Points.{NoPoint, Point, point_at, point_given, disk_in, seen_in, history_in, faults_in, room_in, number_in, must_reopen, kept_in, IsResting, IsUnchanged, IsBroken, IsOldOrNew, SavesOver};

use disk_model::disk::Disk;
use dpc_model::plans::Plan;
use pipeline::snapshots::Snapshot;
use saved_slots::fault::SaveFault;
use saved_slots::slots::{SavedSlots, slot_number};
use snapshot_reader::faults::ReadFault;
use snapshot_reader::snapshot::read_snapshot;
use snapshot_writer::payload::SnapshotPayload;
use std::alloc::Global;

/// A disk with a node's last snapshot. Contracts see of it what `specs/Points` has words for.
#[derive(Drop)]
pub struct SavedPoint<D: Disk> {
    slots: SavedSlots<D>,
}

impl<D: Disk> SavedPoint<D> {
    /// Begins with nothing kept. `room` is how many bytes a slot has, from 64 to 2^32; the disk has two of them.
    /// An error is `DiskFault` or `NoMemory`, and gives the disk back, of which nothing is said.
    pub fn make(disk: D, room: u64) -> Result<SavedPoint<D>, (SaveFault, D)>
        requires roomy { 64 ≤ room }
        requires short { room ≤ 2 ^ 32 }
        requires fits { room + room ≤ D.extent disk }
        ensures rests { D.is_honest disk → IfOk result (λ point. IsResting point) }
        ensures none { D.is_honest disk → IfOk result (λ point. (plan : PlanValue) (frag : ℕ) → kept_in plan frag point ≡ NoPoint) }
        ensures room { IfOk result (λ point. room_in point ≡ room) }
        ensures number { IfOk result (λ point. number_in point ≡ 0) }
        ensures fresh { IfOk result (λ point. must_reopen point ≡ false) }
        ensures extent { IfOk result (λ point. D.extent (disk_in point) ≡ D.extent disk) }
        ensures extent_err { IfErr result (λ refused. D.extent refused.1 ≡ D.extent disk) }
        ensures disk_fault { IfErr result (λ refused. refused.0 ≡ DiskFault → D.faults disk < D.faults refused.1) }
        ensures faults { IfOk result (λ point. D.faults disk ≤ faults_in point) }
        ensures faults_err { IfErr result (λ refused. D.faults disk ≤ D.faults refused.1) }
        ensures stop { IfErr result (λ refused. IsStop refused.0) }
        ensures honest { D.is_honest disk → IfErr result (λ refused. D.is_honest refused.1) }
    {
        let slots = SavedSlots::make(disk, room)?;
        Ok(SavedPoint { slots })
    }

    /// Reads the snapshot that is kept, `None` where nothing is. It may crash too, and then leaves nothing that a crash
    /// before it could not have left. An error gives the disk back: `Broken` with the slot's number, 0 or 1, where the
    /// slot that would be given has no snapshot of this fragment, `DiskFault` where the disk failed, or `NoMemory`.
    pub fn open(
        alloc: Global,
        disk: D,
        room: u64,
        plan: &Plan,
        frag: u64,
    ) -> Result<(SavedPoint<D>, Option<Snapshot>), (SaveFault, D)>
        requires roomy { 64 ≤ room }
        requires short { room ≤ 2 ^ 32 }
        requires fits { room + room ≤ D.extent disk }
        requires known { frag < length plan.now.frags }
        requires sound { AreSoundFrags plan.now.frags }
        ensures rests { D.is_honest disk → IfOk result (λ opened. IsResting opened.0) }
        ensures reading { D.is_honest disk → IfOk result (λ opened. point_given opened.1 ≡ point_at plan.now frag room (D.seen disk)) }
        ensures kept { D.is_honest disk → IfOk result (λ opened. kept_in plan.now frag opened.0 ≡ point_given opened.1) }
        ensures room { IfOk result (λ opened. room_in opened.0 ≡ room) }
        ensures number { D.is_honest disk → IfOk result (λ opened. number_in opened.0 ≡ number_of room (D.seen disk) (given room (D.seen disk))) }
        ensures fresh { IfOk result (λ opened. must_reopen opened.0 ≡ false) }
        ensures extent { IfOk result (λ opened. D.extent (disk_in opened.0) ≡ D.extent disk) }
        ensures extent_err { IfErr result (λ refused. D.extent refused.1 ≡ D.extent disk) }
        ensures any_moment { D.is_honest disk → IfOk result (λ opened. LeavesNoMore (D.history disk) (history_in opened.0)) }
        ensures any_moment_err { D.is_honest disk → IfErr result (λ refused. LeavesNoMore (D.history disk) (D.history refused.1)) }
        ensures honest { D.is_honest disk → IfErr result (λ refused. D.is_honest refused.1) }
        ensures broken { D.is_honest disk → IfErr result (λ refused. (slot : ℕ) → refused.0 ≡ Broken slot → IsBroken plan.now frag room (D.seen disk) slot) }
        ensures disk_fault { IfErr result (λ refused. refused.0 ≡ DiskFault → D.faults disk < D.faults refused.1) }
        ensures faults { IfOk result (λ opened. D.faults disk ≤ faults_in opened.0) }
        ensures faults_err { IfErr result (λ refused. D.faults disk ≤ D.faults refused.1) }
    {
        let (slots, payload) = SavedSlots::open(alloc, disk, room)?;
        let Some(bytes) = payload else {
            return Ok((SavedPoint { slots }, None));
        };
        match read_snapshot(alloc, plan, frag, bytes.as_slice()) {
            Ok(snapshot) => Ok((SavedPoint { slots }, Some(snapshot))),
            Err(ReadFault::NoMemory) => Err((SaveFault::NoMemory, slots.into_disk())),
            Err(ReadFault::NoReading) => {
                let second = slots.last_slot().unwrap_or(false);
                Err((SaveFault::Broken(slot_number(second)), slots.into_disk()))
            }
        }
    }

    /// Saves a snapshot over the older of the two. At `Ok` it is kept: each crash from then on leaves it.
    /// `Reopen` comes where an earlier save was stopped, and `Full` where the snapshot needs more bytes than a slot has:
    /// then nothing changed. At `DiskFault` and `NoMemory` the save was stopped: open the disk again, which has what was
    /// kept before, or the snapshot.
    pub fn save(&mut self, alloc: Global, snapshot: &Snapshot) -> Result<(), SaveFault>
        requires { number_in self.old + 1 < 2 ^ 64 }
        // A crash at any moment leaves what was kept, or the snapshot.
        ensures any_moment { (plan : PlanValue) (frag : ℕ) → IsResting self.old → IsSavable plan frag snapshot.now → SavesOver plan frag self.old self.new snapshot.now }
        ensures rests { IsResting self.old → OnOk result (IsResting self.new) }
        ensures kept { (plan : PlanValue) (frag : ℕ) → IsResting self.old → IsSavable plan frag snapshot.now → OnOk result (kept_in plan frag self.new ≡ Point snapshot.now) }
        // So does the disk itself, whatever was answered.
        ensures whatever { (plan : PlanValue) (frag : ℕ) → IsResting self.old → IsSavable plan frag snapshot.now
            → IsOldOrNew plan frag (room_in self.old) (kept_in plan frag self.old) snapshot.now (seen_in self.new) }
        ensures honest { D.is_honest (disk_in self.old) → D.is_honest (disk_in self.new) }
        ensures disk_fault { IsErrOf result DiskFault → faults_in self.old < faults_in self.new }
        ensures faults { faults_in self.old ≤ faults_in self.new }
        ensures refused { must_reopen self.old ≡ true → (result ≡ Err Reopen) × IsUnchanged self.old self.new }
        ensures too_long { must_reopen self.old ≡ false → room_in self.old < length (snapshot_bytes snapshot.now) + 32 → length (snapshot_bytes snapshot.now) < 2 ^ 63
            → (result ≡ Err (Full (length (snapshot_bytes snapshot.now) + 32) (room_in self.old))) × IsUnchanged self.old self.new }
        ensures reopen { IsErrOf result Reopen → must_reopen self.old ≡ true }
        ensures full { (need room : ℕ) → result ≡ Err (Full need room) → (need ≡ length (snapshot_bytes snapshot.now) + 32) × (room ≡ room_in self.old) × (room < need)
            × (must_reopen self.old ≡ false) × IsUnchanged self.old self.new }
        ensures fits { OnOk result (length (snapshot_bytes snapshot.now) + 32 ≤ room_in self.old) }
        ensures stopped { IsErrOf result DiskFault ⊎ IsErrOf result NoMemory → (must_reopen self.new ≡ true) ⊎ IsUnchanged self.old self.new }
        ensures number { OnOk result ((number_in self.new ≡ number_in self.old + 1) × (must_reopen self.new ≡ false)) }
        ensures never_broken { (slot : ℕ) → IsErrOf result (Broken slot) → ⊥ }
        ensures room { room_in self.new ≡ room_in self.old }
        ensures extent { D.extent (disk_in self.new) ≡ D.extent (disk_in self.old) }
    {
        if self.slots.must_reopen() {
            return Err(SaveFault::Reopen);
        }
        let Ok(payload) = SnapshotPayload::new(snapshot) else {
            return Err(SaveFault::NoMemory);
        };
        self.slots.save(alloc, &payload)
    }

    /// How many bytes a slot has.
    pub fn room(&self) -> u64
        ensures { result ≡ room_in self.now }
    {
        self.slots.room()
    }

    /// The number of the last save, 0 where there was none. A save asks that it is no more than 2^64 - 2.
    pub fn number(&self) -> u64
        ensures { result ≡ number_in self.now }
    {
        self.slots.number()
    }

    /// Gives the disk back as it is.
    pub fn into_disk(self) -> D
        ensures { result ≡ disk_in self }
    {
        let SavedPoint { slots } = self;
        slots.into_disk()
    }
}
