//! The payload that was saved last, on a disk in two slots.
//!
//! A slot has `room` bytes: the gate, 1 where the slot is open, 15 unused bytes, the number and the length of eight
//! bytes each, big-endian, and the payload. The open slot with the greater number counts, and the first where both
//! are equal. A save takes the other slot: it shuts the gate, fills the slot behind it, and opens the gate, with a
//! sync after each of the three.
ghost use Rattle.std.specs.Prelude.{◌≡◌, ◌⊎◌, ◌<◌, ◌≤◌, ◌+◌, ◌^◌, ℕ, length, Some, None, Err, IfOk, IfErr, OnOk, IsErrOf, true, false};

use crate::fault::SaveFault;
use crate::look::look;
use crate::payload::Payload;
use crate::writes::put_slot;
use disk_model::disk::{Disk, DiskStop};
use std::alloc::Global;

/// A disk with its two slots. Contracts see of it what `specs/Resting` has words for.
#[derive(Drop)]
pub struct SavedSlots<D: Disk> {
    disk: D,
    room: u64,
    // The slot that was given or saved last, and its number.
    last: Option<bool>,
    number: u64,
    // A save began that did not end.
    spent: bool,
    ghost roomy: { 64 ≤ room },
    ghost short: { room ≤ 2 ^ 32 },
    ghost fits: { room + room ≤ D.Disk.extent disk },
}

ghost use Rattle.disk_model.specs.Disk.{HasCause};
ghost use Rattle.disk_model.specs.Synced.{IsSynced};
ghost use Rattle.saved_slots.specs.Slots.{start_of, next_of, given, slot_number as number_of_slot};

/// Where a slot begins, in bytes.
pub(crate) fn start(room: u64, second: bool) -> u64
    ensures { result ≡ start_of room second }
{
    if second { room } else { 0 }
}

/// The number of a slot, as a fault tells it: 0 of the first, 1 of the second.
pub fn slot_number(second: bool) -> u64
    ensures { result ≡ number_of_slot second }
{
    if second { 1 } else { 0 }
}

fn next_slot(last: Option<bool>) -> bool
    ensures { result ≡ next_of last }
{
    match last {
        None => false,
        Some(second) => !second,
    }
}

// Both gates are written 0 and synced.
fn shut_both<D: Disk>(disk: &mut D, room: u64) -> Result<(), DiskStop>
    requires roomy { 64 ≤ room }
    requires fits { room + room ≤ D.extent disk.old }
    ensures extent { D.extent disk.new ≡ D.extent disk.old }
    ensures cause { HasCause (D.faults disk.old) (D.faults disk.new) result }
    ensures honest { D.is_honest disk.old → D.is_honest disk.new }
    ensures synced { D.is_honest disk.old → OnOk result (IsSynced (D.history disk.new) (D.seen disk.new)) }
    ensures shut { D.is_honest disk.old → OnOk result (given room (D.seen disk.new) ≡ None) }
{
    disk.write(0, &[0])?;
    disk.write(room, &[0])?;
    disk.sync()?;
    Ok(())
}

impl<D: Disk> SavedSlots<D> {
    ghost use Rattle.disk_model.specs.Looking.{LeavesNoMore};
    ghost use Rattle.saved_slots.specs.Slots.{number_of, read_of, Nothing, Holding, IsBroken};
    ghost use Rattle.saved_slots.specs.Looking.{reading_of};
    ghost use Rattle.saved_slots.specs.Standing.{IsOldOrNew};
    ghost use Rattle.saved_slots.specs.Resting.{disk_in, seen_in, history_in, faults_in, room_in, slot_in, number_in, must_reopen, kept_in, IsResting, IsUnchanged, SavesOver};
    ghost use Rattle.saved_slots.specs.Faults.{refusal_of, IsStop};
    ghost use Rattle.saved_slots.specs.declared.fault.SaveFault.TheVariants.{NoMemory, DiskFault, Full, Broken, Reopen};

    /// Begins with nothing kept: both gates are shut. `room` is how many bytes a slot has.
    /// An error is `DiskFault` or `NoMemory`, and gives the disk back, of which nothing is said.
    pub fn make(mut disk: D, room: u64) -> Result<SavedSlots<D>, (SaveFault, D)>
        requires roomy { 64 ≤ room }
        requires short { room ≤ 2 ^ 32 }
        requires fits { room + room ≤ D.extent disk }
        ensures rests { D.is_honest disk → IfOk result (λ slots. IsResting slots) }
        ensures nothing { D.is_honest disk → IfOk result (λ slots. kept_in slots ≡ Nothing) }
        ensures room { IfOk result (λ slots. room_in slots ≡ room) }
        ensures number { IfOk result (λ slots. number_in slots ≡ 0) }
        ensures fresh { IfOk result (λ slots. must_reopen slots ≡ false) }
        ensures extent { IfOk result (λ slots. D.extent (disk_in slots) ≡ D.extent disk) }
        ensures extent_err { IfErr result (λ refused. D.extent refused.1 ≡ D.extent disk) }
        ensures disk_fault { IfErr result (λ refused. refused.0 ≡ DiskFault → D.faults disk < D.faults refused.1) }
        ensures faults { IfOk result (λ slots. D.faults disk ≤ faults_in slots) }
        ensures faults_err { IfErr result (λ refused. D.faults disk ≤ D.faults refused.1) }
        ensures stop { IfErr result (λ refused. IsStop refused.0) }
        ensures honest { D.is_honest disk → IfErr result (λ refused. D.is_honest refused.1) }
    {
        if let Err(stop) = shut_both(&mut disk, room) {
            return Err((SaveFault::from(stop), disk));
        }
        Ok(SavedSlots {
            disk,
            room,
            last: None,
            number: 0,
            spent: false,
        })
    }

    /// Reads what is kept: its bytes, or `None` where nothing is. It may crash too, and then leaves nothing that a
    /// crash before it could not have left. An error gives the disk back: `Broken` with the slot's number, 0 or 1,
    /// where the slot that would be given has no reading, `DiskFault` where the disk failed, or `NoMemory`.
    pub fn open(
        alloc: Global,
        mut disk: D,
        room: u64,
    ) -> Result<(SavedSlots<D>, Option<Vec<u8>>), (SaveFault, D)>
        requires roomy { 64 ≤ room }
        requires short { room ≤ 2 ^ 32 }
        requires fits { room + room ≤ D.extent disk }
        ensures rests { D.is_honest disk → IfOk result (λ opened. IsResting opened.0) }
        ensures reading { D.is_honest disk → IfOk result (λ opened. reading_of opened.1 ≡ read_of room (D.seen disk)) }
        ensures kept { D.is_honest disk → IfOk result (λ opened. kept_in opened.0 ≡ read_of room (D.seen disk)) }
        ensures room { IfOk result (λ opened. room_in opened.0 ≡ room) }
        ensures number { D.is_honest disk → IfOk result (λ opened. number_in opened.0 ≡ number_of room (D.seen disk) (given room (D.seen disk))) }
        ensures slot { D.is_honest disk → IfOk result (λ opened. slot_in opened.0 ≡ given room (D.seen disk)) }
        ensures fresh { IfOk result (λ opened. must_reopen opened.0 ≡ false) }
        ensures extent { IfOk result (λ opened. D.extent (disk_in opened.0) ≡ D.extent disk) }
        ensures extent_err { IfErr result (λ refused. D.extent refused.1 ≡ D.extent disk) }
        ensures any_moment { D.is_honest disk → IfOk result (λ opened. LeavesNoMore (D.history disk) (history_in opened.0)) }
        ensures any_moment_err { D.is_honest disk → IfErr result (λ refused. LeavesNoMore (D.history disk) (D.history refused.1)) }
        ensures honest { D.is_honest disk → IfErr result (λ refused. D.is_honest refused.1) }
        ensures broken { D.is_honest disk → IfErr result (λ refused. (slot : ℕ) → refused.0 ≡ Broken slot → IsBroken room (D.seen disk) slot) }
        ensures disk_fault { IfErr result (λ refused. refused.0 ≡ DiskFault → D.faults disk < D.faults refused.1) }
        ensures faults { IfOk result (λ opened. D.faults disk ≤ faults_in opened.0) }
        ensures faults_err { IfErr result (λ refused. D.faults disk ≤ D.faults refused.1) }
    {
        match look(alloc, &mut disk, room) {
            Ok(found) => {
                let slots = SavedSlots {
                    disk,
                    room,
                    last: found.last,
                    number: found.number,
                    spent: false,
                };
                Ok((slots, found.payload))
            }
            Err(fault) => Err((fault, disk)),
        }
    }

    // An earlier stop refuses first, then a payload that is too long.
    fn refusal(&self, count: u64) -> Option<SaveFault>
        requires { count < 2 ^ 63 }
        ensures { result ≡ refusal_of (must_reopen self.now) (room_in self.now) count }
    {
        let room = self.room;
        let need = count + 32;
        if self.spent {
            return Some(SaveFault::Reopen);
        }
        if need > room {
            return Some(SaveFault::Full { need, room });
        }
        None
    }

    /// Saves a payload over the older of the two. At `Ok` it is kept: each crash from then on leaves it.
    /// `Reopen` comes where an earlier save was stopped, and `Full` where the payload needs more than a slot has; then
    /// nothing changed. At `DiskFault` and `NoMemory` the save was stopped: open the disk again, which has what was
    /// kept before, or the payload.
    pub fn save<P: Payload>(&mut self, alloc: Global, payload: &P) -> Result<(), SaveFault>
        requires { number_in self.old + 1 < 2 ^ 64 }
        // A crash at any moment leaves what was kept, or the payload.
        ensures any_moment { IsResting self.old → SavesOver self.old self.new (P.bytes payload.now) }
        ensures rests { IsResting self.old → OnOk result (IsResting self.new) }
        ensures kept { IsResting self.old → OnOk result (kept_in self.new ≡ Holding (P.bytes payload.now)) }
        // So does the disk itself, whatever was answered.
        ensures whatever { IsResting self.old → IsOldOrNew (room_in self.old) (kept_in self.old) (P.bytes payload.now) (seen_in self.new) }
        ensures honest { D.is_honest (disk_in self.old) → D.is_honest (disk_in self.new) }
        ensures disk_fault { IsErrOf result DiskFault → faults_in self.old < faults_in self.new }
        ensures faults { faults_in self.old ≤ faults_in self.new }
        ensures refused { (why : _) → refusal_of (must_reopen self.old) (room_in self.old) (length (P.bytes payload.now)) ≡ Some why → (result ≡ Err why) × IsUnchanged self.old self.new }
        ensures reopen { IsErrOf result Reopen → must_reopen self.old ≡ true }
        ensures fit { OnOk result (length (P.bytes payload.now) + 32 ≤ room_in self.old) }
        ensures full { (need room : ℕ) → result ≡ Err (Full need room) → (must_reopen self.old ≡ false) × (room_in self.old < length (P.bytes payload.now) + 32) }
        ensures stopped { IsErrOf result DiskFault ⊎ IsErrOf result NoMemory → must_reopen self.new ≡ true }
        ensures number { OnOk result ((number_in self.new ≡ number_in self.old + 1) × (must_reopen self.new ≡ false)) }
        ensures never_broken { (slot : ℕ) → IsErrOf result (Broken slot) → ⊥ }
        ensures room { room_in self.new ≡ room_in self.old }
        ensures extent { D.extent (disk_in self.new) ≡ D.extent (disk_in self.old) }
    {
        if let Some(fault) = self.refusal(payload.count_bytes()) {
            return Err(fault);
        }
        self.spent = true;
        let second = next_slot(self.last);
        let number = self.number + 1;
        let mut buf = Vec::new(alloc);
        put_slot(
            &mut self.disk,
            start(self.room, second),
            number,
            payload,
            &mut buf,
        )?;
        self.last = Some(second);
        self.number = number;
        self.spent = false;
        Ok(())
    }

    /// How many bytes a slot has.
    pub fn room(&self) -> u64
        ensures { result ≡ room_in self.now }
    {
        self.room
    }

    /// The number of the payload that was saved or given last, 0 where there is none. A save asks that it is no more
    /// than 2^64 - 2, the test for what an opening found.
    pub fn number(&self) -> u64
        ensures { result ≡ number_in self.now }
    {
        self.number
    }

    /// The slot that was saved to or given last, whether it is the second one; `None` where there is none.
    pub fn last_slot(&self) -> Option<bool>
        ensures { result ≡ slot_in self.now }
    {
        self.last
    }

    /// Whether a save was stopped, so that the disk is to be opened again.
    pub fn must_reopen(&self) -> bool
        ensures { result ≡ must_reopen self.now }
    {
        self.spent
    }

    /// Gives the disk back as it is.
    pub fn into_disk(self) -> D
        ensures { result ≡ disk_in self }
    {
        let SavedSlots {
            disk,
            room: _,
            last: _,
            number: _,
            spent: _,
        } = self;
        disk
    }
}
