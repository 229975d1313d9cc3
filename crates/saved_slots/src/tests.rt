use crate::fault::SaveFault;
use crate::slots::SavedSlots;
use disk_model::mem_disk::MemDisk;
use std::alloc::Global;
use std::test::Fail;

const ROOM: u64 = 64;

// Two saves of one byte and of two on a disk that fails at one call: how many bytes are read again.
fn read_again(alloc: Global, at: u64) -> Result<usize, Fail> {
    let disk = MemDisk::new(128, vec![in alloc; at]?);
    let disk = match SavedSlots::make(disk, ROOM) {
        Ok(mut slots) => {
            if slots.save(alloc, &[1u8].as_slice()).is_ok() {
                let _ = slots.save(alloc, &[2u8, 2].as_slice());
            }
            slots.into_disk()
        }
        Err((_, disk)) => disk,
    };
    match SavedSlots::open(alloc, disk, ROOM) {
        Ok((slots, payload)) => {
            let _ = slots.into_disk();
            Ok(payload.map_or(0, |bytes| bytes.len()))
        }
        Err((fault, _)) => Err(fault)?,
    }
}

#[test]
fn a_fault_in_a_save_leaves_the_old_or_the_new(rt: HostRuntime) -> Result<(), Fail> {
    let alloc = rt.alloc();
    // make has calls 0 to 2, the first save 3 to 8 and the second 9 to 14.
    for at in 0..15 {
        let kept = match at {
            0..=7 => 0,
            8..=13 => 1,
            _ => 2,
        };
        assert_eq!(rt; read_again(alloc, at)?, kept);
    }
    Ok(())
}

#[test]
fn slots_may_lie_far_apart(rt: HostRuntime) -> Result<(), Fail> {
    let alloc = rt.alloc();
    let room = 1 << 32;
    let Ok(mut slots) = SavedSlots::make(MemDisk::new(1 << 33, Vec::new(alloc)), room) else {
        return Err("no disk failed")?;
    };
    slots.save(alloc, &[1u8].as_slice())?;
    slots.save(alloc, &[2u8, 2].as_slice())?;
    let Ok((slots, payload)) = SavedSlots::open(alloc, slots.into_disk(), room) else {
        return Err("no disk failed")?;
    };
    let _ = slots.into_disk();
    assert_eq!(rt; payload, Some(vec![in alloc; 2, 2]?));
    Ok(())
}

#[test]
fn a_payload_that_is_too_long_is_refused(rt: HostRuntime) -> Result<(), Fail> {
    let alloc = rt.alloc();
    let Ok(mut slots) = SavedSlots::make(MemDisk::new(128, Vec::new(alloc)), ROOM) else {
        return Err("no disk failed")?;
    };
    let full = slots.save(alloc, &[0u8; 33].as_slice());
    assert_eq!(rt; full, Err(SaveFault::Full { need: 65, room: 64 }));
    Ok(())
}
