//! What an opened disk has.
ghost use Rattle.std.specs.Prelude.{◌≡◌, ◌≤◌, ◌+◌, ◌<◌, length, IfOk, IfErr, OnOk, IsErrOf, if◌then◌else◌, ℕ};
ghost use Rattle.saved_slots.specs.Slots.{given, number_of, read_of, slot_number, IsBroken};
ghost use Rattle.saved_slots.specs.Looking.{reading_of};
ghost use Rattle.disk_model.specs.Looking.{LeavesNoMore};
ghost use Rattle.disk_model.specs.Synced.{IsSynced};
ghost use Rattle.saved_slots.specs.declared.fault.SaveFault.TheVariants.{DiskFault, Broken};

use crate::fault::SaveFault;
use crate::reads::{Header, choose, read_header, read_payload};
use crate::slots::{slot_number, start};
use disk_model::disk::Disk;
use std::alloc::Global;

#[derive(Drop)]
pub struct Found {
    pub last: Option<bool>,
    pub number: u64,
    pub payload: Option<Vec<u8>>,
}

fn header_of(which: bool, first: Header, second: Header) -> Header
    ensures { result ≡ (if which then second else first) }
{
    if which { second } else { first }
}

pub(crate) fn look<D: Disk>(alloc: Global, disk: &mut D, room: u64) -> Result<Found, SaveFault>
    requires roomy { 64 ≤ room }
    requires fits { room + room ≤ D.extent disk.old }
    ensures extent { D.extent disk.new ≡ D.extent disk.old }
    ensures honest { D.is_honest disk.old → D.is_honest disk.new }
    ensures any_moment { D.is_honest disk.old → LeavesNoMore (D.history disk.old) (D.history disk.new) }
    ensures synced { D.is_honest disk.old → OnOk result (IsSynced (D.history disk.new) (D.seen disk.new)) }
    ensures seen { D.is_honest disk.old → OnOk result (D.seen disk.new ≡ D.seen disk.old) }
    ensures slot { D.is_honest disk.old → IfOk result (λ found. found.last ≡ given room (D.seen disk.old)) }
    ensures number { D.is_honest disk.old → IfOk result (λ found. found.number ≡ number_of room (D.seen disk.old) found.last) }
    ensures reading { D.is_honest disk.old → IfOk result (λ found. reading_of found.payload ≡ read_of room (D.seen disk.old)) }
    ensures broken { D.is_honest disk.old → IfErr result (λ fault. (slot : ℕ) → fault ≡ Broken slot → IsBroken room (D.seen disk.old) slot) }
    ensures disk_fault { IsErrOf result DiskFault → D.faults disk.old < D.faults disk.new }
    ensures faults { D.faults disk.old ≤ D.faults disk.new }
{
    // Each place on the disk is a u64.
    let _size = disk.size();
    disk.sync()?;
    let first = read_header(disk, 0)?;
    let second = read_header(disk, room)?;
    let Some(which) = choose(first, second) else {
        return Ok(Found {
            last: None,
            number: 0,
            payload: None,
        });
    };
    let header = header_of(which, first, second);
    if header.length > room - 32 {
        return Err(SaveFault::Broken(slot_number(which)));
    }
    let payload = read_payload(alloc, disk, start(room, which) + 32, header.length)?;
    Ok(Found {
        last: Some(which),
        number: header.number,
        payload: Some(payload),
    })
}
