//! What is read of a slot.
ghost use Rattle.std.specs.Prelude.{◌≡◌, ◌≤◌, ◌+◌, ◌^◌, ◌<◌, length, IfOk, Some};
ghost use Rattle.std.specs.Int.{w64, from_be_bytes};
ghost use Rattle.disk_model.specs.Disk.{HasCause, part};
ghost use Rattle.saved_slots.specs.Slots.{chosen};

use disk_model::disk::{Disk, DiskStop};
use std::alloc::{AllocError, Global};

#[derive(Clone, Copy)]
pub struct Header {
    pub opened: bool,
    pub number: u64,
    pub length: u64,
}

ghost use Rattle.disk_model.specs.Looking.{Looks};
ghost use Rattle.saved_slots.specs.Looking.{IsHeaderOf};

pub(crate) fn read_number<D: Disk>(disk: &mut D, at: u64) -> Result<u64, DiskStop>
    requires { at + 8 ≤ D.extent disk.old }
    ensures extent { D.extent disk.new ≡ D.extent disk.old }
    ensures cause { HasCause (D.faults disk.old) (D.faults disk.new) result }
    ensures honest { D.is_honest disk.old → D.is_honest disk.new }
    ensures seen { D.is_honest disk.old → D.seen disk.new ≡ D.seen disk.old }
    ensures looks { D.is_honest disk.old → Looks (D.history disk.old) (D.history disk.new) }
    ensures number { D.is_honest disk.old → IfOk result (λ n. n ≡ from_be_bytes w64 (part (D.seen disk.old) at 8)) }
{
    let mut bytes = [0; 8];
    disk.read(at, &mut bytes)?;
    Ok(u64::from_be_bytes(bytes))
}

pub(crate) fn read_header<D: Disk>(disk: &mut D, at: u64) -> Result<Header, DiskStop>
    requires { at + 32 ≤ D.extent disk.old }
    ensures extent { D.extent disk.new ≡ D.extent disk.old }
    ensures cause { HasCause (D.faults disk.old) (D.faults disk.new) result }
    ensures honest { D.is_honest disk.old → D.is_honest disk.new }
    ensures seen { D.is_honest disk.old → D.seen disk.new ≡ D.seen disk.old }
    ensures looks { D.is_honest disk.old → Looks (D.history disk.old) (D.history disk.new) }
    ensures header { D.is_honest disk.old → IfOk result (λ header. IsHeaderOf (D.seen disk.old) at header) }
{
    // Each place on the disk is a u64.
    let _size = disk.size();
    let mut gate = [0];
    disk.read(at, &mut gate)?;
    let number = read_number(disk, at + 16)?;
    let length = read_number(disk, at + 24)?;
    Ok(Header {
        opened: gate[0] == 1,
        number,
        length,
    })
}

pub(crate) fn choose(first: Header, second: Header) -> Option<bool>
    ensures { result ≡ chosen first.opened second.opened first.number second.number }
{
    match (first.opened, second.opened) {
        (true, true) => Some(first.number < second.number),
        (true, false) => Some(false),
        (false, true) => Some(true),
        (false, false) => None,
    }
}

fn zeros(alloc: Global, count: u64) -> Result<Vec<u8>, AllocError>
    ensures { IfOk result (λ zeros. length zeros.items ≡ count) }
{
    Ok(vec![in alloc; 0; count as usize]?)
}

pub(crate) fn read_payload<D: Disk>(
    alloc: Global,
    disk: &mut D,
    at: u64,
    count: u64,
) -> Result<Vec<u8>, DiskStop>
    requires { at + count ≤ D.extent disk.old }
    ensures extent { D.extent disk.new ≡ D.extent disk.old }
    ensures cause { HasCause (D.faults disk.old) (D.faults disk.new) result }
    ensures honest { D.is_honest disk.old → D.is_honest disk.new }
    ensures seen { D.is_honest disk.old → D.seen disk.new ≡ D.seen disk.old }
    ensures looks { D.is_honest disk.old → Looks (D.history disk.old) (D.history disk.new) }
    ensures payload { D.is_honest disk.old → IfOk result (λ payload. payload.items ≡ part (D.seen disk.old) at count) }
{
    let mut payload = zeros(alloc, count)?;
    disk.read(at, &mut payload)?;
    Ok(payload)
}
