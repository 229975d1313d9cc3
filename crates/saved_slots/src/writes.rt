//! The steps of a save, each over a disk of which a crash leaves what a read gives.
ghost use Rattle.std.specs.Prelude.{◌≡◌, ◌≤◌, ◌+◌, List, ℕ, false, length, OnOk};
ghost use Rattle.disk_model.specs.Disk.{Holds, LeavesOnly, HasCause};
ghost use Rattle.disk_model.specs.Synced.{IsSynced, DiffersWithin, WritesAt};
ghost use Rattle.saved_slots.specs.Slots.{start_of, is_open, given, number_of, read_of, head_of, written_slot};
ghost use Rattle.saved_slots.specs.Standing.{HasPoint, IsOldOrNew};
ghost use Rattle.saved_slots.specs.Saving.{MayBeShut, IsReady};

use crate::payload::Payload;
use disk_model::disk::{Disk, DiskStop};
use std::alloc::AllocError;

/// Writes and syncs. A crash meanwhile may leave any bytes there, and nothing else changed.
pub(crate) fn write_synced<D: Disk>(disk: &mut D, at: u64, bytes: &[u8]) -> Result<(), DiskStop>
    requires { at + length bytes.now ≤ D.extent disk.old }
    ensures extent { D.extent disk.new ≡ D.extent disk.old }
    ensures cause { HasCause (D.faults disk.old) (D.faults disk.new) result }
    ensures honest { D.is_honest disk.old → D.is_honest disk.new }
    ensures any_moment { D.is_honest disk.old → IsSynced (D.history disk.old) (D.seen disk.old)
        → LeavesOnly (D.history disk.old) (D.history disk.new) (DiffersWithin at (length bytes.now) (D.seen disk.old)) }
    ensures synced { D.is_honest disk.old → OnOk result (IsSynced (D.history disk.new) (D.seen disk.new)) }
    ensures written { D.is_honest disk.old → OnOk result (Holds (D.seen disk.old) at bytes.now (D.seen disk.new)) }
{
    disk.write(at, bytes)?;
    disk.sync()?;
    Ok(())
}

/// Shuts an open gate. One that isn't open stays unwritten: a torn write could open it over old bytes.
pub(crate) fn shut_gate<D: Disk>(disk: &mut D, at: u64) -> Result<(), DiskStop>
    requires { at + 1 ≤ D.extent disk.old }
    ensures extent { D.extent disk.new ≡ D.extent disk.old }
    ensures cause { HasCause (D.faults disk.old) (D.faults disk.new) result }
    ensures honest { D.is_honest disk.old → D.is_honest disk.new }
    ensures any_moment { D.is_honest disk.old → IsSynced (D.history disk.old) (D.seen disk.old)
        → LeavesOnly (D.history disk.old) (D.history disk.new) (MayBeShut at (D.seen disk.old)) }
    ensures synced { D.is_honest disk.old → IsSynced (D.history disk.old) (D.seen disk.old) → OnOk result (IsSynced (D.history disk.new) (D.seen disk.new)) }
    ensures shut { D.is_honest disk.old → OnOk result (is_open (D.seen disk.new) at ≡ false) }
{
    let mut gate = [0];
    disk.read(at, &mut gate)?;
    if gate[0] == 1 {
        write_synced(disk, at, &[0])?;
    }
    Ok(())
}

// Number and length, in the place of what the buffer had.
fn put_head(buf: &mut Vec<u8>, number: u64, count: u64) -> Result<(), AllocError>
    ensures { OnOk result (buf.new.items ≡ head_of number count) }
{
    buf.clear();
    buf.extend_from_slice(&number.to_be_bytes())?;
    buf.extend_from_slice(&count.to_be_bytes())?;
    Ok(())
}

// The pieces one behind another, unsynced. The buffer is used again for each.
fn write_pieces<D: Disk, P: Payload>(
    disk: &mut D,
    at: u64,
    payload: &P,
    buf: &mut Vec<u8>,
) -> Result<(), DiskStop>
    requires { at + length (P.bytes payload.now) ≤ D.extent disk.old }
    ensures extent { D.extent disk.new ≡ D.extent disk.old }
    ensures cause { HasCause (D.faults disk.old) (D.faults disk.new) result }
    ensures honest { D.is_honest disk.old → D.is_honest disk.new }
    ensures writes { D.is_honest disk.old → WritesAt at (length (P.bytes payload.now)) (D.history disk.old) (D.history disk.new) }
    ensures written { D.is_honest disk.old → OnOk result (Holds (D.seen disk.old) at (P.bytes payload.now) (D.seen disk.new)) }
{
    // Each place on the disk is a u64.
    let _size = disk.size();
    let mut place = at;
    for number in 0..payload.count_pieces() {
        payload.give_piece(number, buf)?;
        disk.write(place, buf)?;
        place += buf.len() as u64;
    }
    Ok(())
}

/// Writes number, length and payload, and syncs once.
pub(crate) fn fill_slot<D: Disk, P: Payload>(
    disk: &mut D,
    at: u64,
    number: u64,
    payload: &P,
    buf: &mut Vec<u8>,
) -> Result<(), DiskStop>
    requires { at + 16 + length (P.bytes payload.now) ≤ D.extent disk.old }
    ensures extent { D.extent disk.new ≡ D.extent disk.old }
    ensures cause { HasCause (D.faults disk.old) (D.faults disk.new) result }
    ensures honest { D.is_honest disk.old → D.is_honest disk.new }
    ensures any_moment { D.is_honest disk.old → IsSynced (D.history disk.old) (D.seen disk.old)
        → LeavesOnly (D.history disk.old) (D.history disk.new) (DiffersWithin at (16 + length (P.bytes payload.now)) (D.seen disk.old)) }
    ensures synced { D.is_honest disk.old → OnOk result (IsSynced (D.history disk.new) (D.seen disk.new)) }
    ensures written { D.is_honest disk.old → OnOk result (Holds (D.seen disk.old) at (written_slot number (P.bytes payload.now)) (D.seen disk.new)) }
{
    // Each place on the disk is a u64.
    let _size = disk.size();
    put_head(buf, number, payload.count_bytes())?;
    disk.write(at, buf)?;
    write_pieces(disk, at + 16, payload, buf)?;
    disk.sync()?;
    Ok(())
}

/// Shuts the gate, fills the slot behind it, and opens it.
pub(crate) fn put_slot<D: Disk, P: Payload>(
    disk: &mut D,
    at: u64,
    number: u64,
    payload: &P,
    buf: &mut Vec<u8>,
) -> Result<(), DiskStop>
    requires { at + 32 + length (P.bytes payload.now) ≤ D.extent disk.old }
    ensures extent { D.extent disk.new ≡ D.extent disk.old }
    ensures cause { HasCause (D.faults disk.old) (D.faults disk.new) result }
    ensures honest { D.is_honest disk.old → D.is_honest disk.new }
    ensures any_moment { D.is_honest disk.old → (room : ℕ) (second : _) → at ≡ start_of room second
        → IsReady room second number (P.bytes payload.now) (D.history disk.old) (D.seen disk.old)
        → LeavesOnly (D.history disk.old) (D.history disk.new) (IsOldOrNew room (read_of room (D.seen disk.old)) (P.bytes payload.now)) }
    ensures done { D.is_honest disk.old → (room : ℕ) (second : _) → at ≡ start_of room second
        → IsReady room second number (P.bytes payload.now) (D.history disk.old) (D.seen disk.old)
        → OnOk result (IsSynced (D.history disk.new) (D.seen disk.new) × HasPoint room (D.seen disk.new) second number (P.bytes payload.now)) }
{
    // Each place on the disk is a u64.
    let _size = disk.size();
    shut_gate(disk, at)?;
    fill_slot(disk, at + 16, number, payload, buf)?;
    write_synced(disk, at, &[1])?;
    Ok(())
}
