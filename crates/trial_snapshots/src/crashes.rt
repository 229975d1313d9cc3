//! Saves of snapshots that are stopped, or in which the disk crashes.
ghost use Rattle.std.specs.Prelude.{◌<◌, length};
ghost use Rattle.dpc_model.specs.Fragments.{AreSoundFrags};

use crate::plans::{plan, union_operators, union_parts};
use crate::taped::{SIZE, Step, Taped, torn};
use disk_model::disk::Disk;
use disk_model::mem_disk::MemDisk;
use dpc_lists::lists::Listed;
use dpc_model::plans::Plan;
use fragment_mill::mill::FragMill;
use pipeline::snapshots::Snapshot;
use saved_point::point::SavedPoint;
use saved_slots::fault::SaveFault;
use std::alloc::Global;
use std::test::Fail;

const ROOM: u64 = 128;

/// A snapshot of the union at a cursor: it needs 73 bytes of a slot.
fn snapshot_at(alloc: Global, plan: &Plan, cursor: u64) -> Result<Snapshot, Fail>
    requires known { 0 < length plan.now.frags }
    requires sound { AreSoundFrags plan.now.frags }
{
    Ok(Snapshot::from_parts(
        cursor,
        Listed::from_vec(vec![in alloc; cursor, 0]?),
        FragMill::from_parts(alloc, plan, 0, union_parts(alloc, cursor)?)?,
        0,
        Listed::from_vec(Vec::new(alloc)),
    ))
}

/// The cursor of the snapshot that a disk has, 0 where it has none.
fn cursor_on<D: Disk + Drop>(alloc: Global, plan: &Plan, disk: D) -> Result<u64, Fail>
    requires known { 0 < length plan.now.frags }
    requires sound { AreSoundFrags plan.now.frags }
{
    if disk.size() != SIZE {
        return Err("the disk has another size")?;
    }
    match SavedPoint::open(alloc, disk, ROOM, plan, 0) {
        Ok((_, snapshot)) => Ok(snapshot.map_or(0, |snapshot| snapshot.cursor)),
        Err((fault, _)) => Err(fault)?,
    }
}

/// Two saves, with cursors 1 and 2, on a disk that fails at one call: which cursor is read again.
fn read_again(alloc: Global, plan: &Plan, at: u64) -> Result<u64, Fail>
    requires known { 0 < length plan.now.frags }
    requires sound { AreSoundFrags plan.now.frags }
{
    let first = snapshot_at(alloc, plan, 1)?;
    let second = snapshot_at(alloc, plan, 2)?;
    let disk = match SavedPoint::make(MemDisk::new(SIZE, vec![in alloc; at]?), ROOM) {
        Ok(mut point) => {
            if point.save(alloc, &first).is_ok() {
                let _ = point.save(alloc, &second);
            }
            point.into_disk()
        }
        Err((_, disk)) => disk,
    };
    cursor_on(alloc, plan, disk)
}

#[test]
fn a_fault_in_a_save_leaves_the_old_or_the_new(rt: HostRuntime) -> Result<(), Fail> {
    let alloc = rt.alloc();
    let plan = plan(alloc, union_operators(alloc)?)?;
    // make has calls 0 to 2, the first save 3 to 10 and the second 11 to 18
    for at in 0..19 {
        let kept = match at {
            0..=9 => 0,
            10..=17 => 1,
            _ => 2,
        };
        assert_eq!(rt; read_again(alloc, &plan, at)?, kept);
    }
    Ok(())
}

/// Whether each crash behind these steps leaves the one cursor or the other.
fn leaves(alloc: Global, plan: &Plan, steps: &[Step], old: u64, new: u64) -> Result<bool, Fail>
    requires known { 0 < length plan.now.frags }
    requires sound { AreSoundFrags plan.now.frags }
{
    // Four writes at most are loose; room for six, so that a sync that is left out shows.
    for choice in 0..4097 {
        let (bytes, left) = torn(alloc, steps, choice)?;
        if left > 0 {
            return Ok(true);
        }
        let steps = Vec::new(alloc);
        let cursor = cursor_on(alloc, plan, Taped { bytes, steps })?;
        if cursor != old && cursor != new {
            return Ok(false);
        }
    }
    Ok(false)
}

/// Opens the disk, saves, and gives it back.
fn saved(alloc: Global, plan: &Plan, taped: Taped, cursor: u64) -> Result<Taped, Fail>
    requires known { 0 < length plan.now.frags }
    requires sound { AreSoundFrags plan.now.frags }
{
    if taped.size() != SIZE {
        return Err("the disk has another size")?;
    }
    let Ok((mut point, _)) = SavedPoint::open(alloc, taped, ROOM, plan, 0) else {
        return Err("no disk failed")?;
    };
    if point.number() > 9 {
        return Err("there were not so many saves")?;
    }
    point.save(alloc, &snapshot_at(alloc, plan, cursor)?)?;
    Ok(point.into_disk())
}

// The third save takes a slot that is open.
#[test]
fn a_crash_in_a_save_leaves_the_old_or_the_new(rt: HostRuntime) -> Result<(), Fail> {
    let alloc = rt.alloc();
    let plan = plan(alloc, union_operators(alloc)?)?;
    let mut taped = Taped {
        bytes: vec![in alloc; 0; SIZE as usize]?,
        steps: Vec::new(alloc),
    };
    for cursor in 1..4 {
        let begun = taped.steps.len();
        taped = saved(alloc, &plan, taped, cursor)?;
        for end in begun..taped.steps.len() {
            let steps = taped.steps.as_slice().split_at(end).0;
            assert!(rt; leaves(alloc, &plan, steps, cursor - 1, cursor)?);
        }
        assert!(rt; leaves(alloc, &plan, &taped.steps, cursor, cursor)?);
    }
    Ok(())
}

#[test]
fn a_snapshot_that_is_too_long_is_refused(rt: HostRuntime) -> Result<(), Fail> {
    let alloc = rt.alloc();
    let plan = plan(alloc, union_operators(alloc)?)?;
    let Ok(mut point) = SavedPoint::make(MemDisk::new(SIZE, Vec::new(alloc)), 72) else {
        return Err("no disk failed")?;
    };
    let full = point.save(alloc, &snapshot_at(alloc, &plan, 0)?);
    assert_eq!(rt; full, Err(SaveFault::Full { need: 73, room: 72 }));
    Ok(())
}
