//! A snapshot's bytes, written out by hand, both ways.
ghost use Rattle.std.specs.Prelude.{◌<◌, length};
ghost use Rattle.dpc_model.specs.Fragments.{AreSoundFrags};

use crate::plans::{join_operators, kept_parts, plan, tuple, union_operators};
use dpc_lists::lists::Listed;
use dpc_model::plans::Plan;
use dpc_model::tuples::Tuple;
use fragment_mill::mill::FragMill;
use fragment_mill::states::{MillParts, OperatorParts};
use ops_window::saved::Cell;
use pipeline::snapshots::Snapshot;
use saved_slots::payload::Payload;
use snapshot_reader::faults::ReadFault;
use snapshot_reader::snapshot::read_snapshot;
use snapshot_writer::payload::SnapshotPayload;
use std::alloc::{AllocError, Global};
use std::test::Fail;

/// Cursor 1, two ports with the counts 258 and 1, base 3, two kept tuples; time 5 with 1 and -1, and time 9 with 2, each
/// a kind, a length, a time, a count of columns and these; a join with a tuple of 7 on each side, of time 6 and 8; and an
/// aggregate with two cells that begin at 0: group -2 with 3 and -1, group 7 with 1 and 7.
const SAVED: &[u8] = b"\
    \0\0\0\0\0\0\0\x01\
    \0\0\0\x02\0\0\0\0\0\0\x01\x02\0\0\0\0\0\0\0\x01\
    \0\0\0\0\0\0\0\x03\
    \0\0\0\x02\
    \x02\0\0\0\x19\0\0\0\0\0\0\0\x05\x02\0\0\0\0\0\0\0\x01\xff\xff\xff\xff\xff\xff\xff\xff\
    \x02\0\0\0\x11\0\0\0\0\0\0\0\x09\x01\0\0\0\0\0\0\0\x02\
    \x01\
    \0\0\0\x01\
    \x02\0\0\0\x11\0\0\0\0\0\0\0\x06\x01\0\0\0\0\0\0\0\x07\
    \0\0\0\x01\
    \x02\0\0\0\x11\0\0\0\0\0\0\0\x08\x01\0\0\0\0\0\0\0\x07\
    \x02\
    \0\0\0\x02\
    \0\0\0\0\0\0\0\0\xff\xff\xff\xff\xff\xff\xff\xfe\
    \0\0\0\0\0\0\0\0\0\0\0\0\0\0\0\x03\
    \xff\xff\xff\xff\xff\xff\xff\xff\xff\xff\xff\xff\xff\xff\xff\xff\
    \0\0\0\0\0\0\0\0\0\0\0\0\0\0\0\x07\
    \0\0\0\0\0\0\0\0\0\0\0\0\0\0\0\x01\
    \0\0\0\0\0\0\0\0\0\0\0\0\0\0\0\x07";

/// Where its base is, and the time of the tuple that waits on the left of the join.
const BASE: usize = 28;

const WAITING: usize = 109;

/// The pieces of a snapshot one behind another, each into a buffer that had something else.
fn written(alloc: Global, snapshot: &Snapshot) -> Result<Vec<u8>, Fail> {
    let payload = SnapshotPayload::new(snapshot)?;
    let mut bytes = Vec::new(alloc);
    for number in 0..payload.count_pieces() {
        let mut piece = vec![in alloc; 7, 7, 7]?;
        payload.give_piece(number, &mut piece)?;
        bytes.extend_from_slice(piece.as_slice())?;
    }
    Ok(bytes)
}

#[test]
fn each_part_has_its_bytes(rt: HostRuntime) -> Result<(), Fail> {
    let alloc = rt.alloc();
    let plan = plan(alloc, join_operators(alloc)?)?;
    let mill = FragMill::from_parts(alloc, &plan, 0, kept_parts(alloc)?)?;
    let kept = vec![in alloc; tuple(alloc, 5, &[1, -1])?, tuple(alloc, 9, &[2])?]?;
    let counts = vec![in alloc; 258, 1]?;
    let snapshot = Snapshot::from_parts(
        1,
        Listed::from_vec(counts),
        mill,
        3,
        Listed::from_vec(kept),
    );
    let payload = SnapshotPayload::new(&snapshot)?;
    assert_eq!(rt; payload.count_bytes(), SAVED.len() as u64);
    assert_eq!(rt; payload.count_pieces(), 4);
    assert_eq!(rt; written(alloc, &snapshot)?.as_slice(), SAVED);
    Ok(())
}

#[test]
fn a_union_that_took_nothing_has_41_bytes(rt: HostRuntime) -> Result<(), Fail> {
    let alloc = rt.alloc();
    let plan = plan(alloc, union_operators(alloc)?)?;
    let snapshot = Snapshot::from_parts(
        0,
        Listed::from_vec(vec![in alloc; 0, 0]?),
        FragMill::new(alloc, &plan, 0)?,
        0,
        Listed::from_vec(Vec::new(alloc)),
    );
    // all zero but for the count of ports
    let mut bytes = [0; 41];
    bytes[11] = 2;
    assert_eq!(rt; written(alloc, &snapshot)?.as_slice(), bytes.as_slice());
    Ok(())
}

/// Whether it has this time and these values.
fn is_tuple(tuple: &Tuple, stime: u64, values: &[i64]) -> bool {
    tuple.stime == stime && tuple.vals.as_slice() == values
}

/// Whether the head and the kept tuples are those of the bytes.
fn has_head(snapshot: &Snapshot) -> bool {
    let [first, second] = snapshot.kept() else {
        return false;
    };
    snapshot.cursor == 1
        && snapshot.counts.as_slice() == [258, 1].as_slice()
        && snapshot.base == 3
        && is_tuple(first, 5, &[1, -1])
        && is_tuple(second, 9, &[2])
}

/// Whether the join keeps what the bytes say.
fn has_sides(left: &[Tuple], right: &[Tuple]) -> bool {
    match (left, right) {
        ([one], [other]) => is_tuple(one, 6, &[7]) && is_tuple(other, 8, &[7]),
        _ => false,
    }
}

/// Whether the aggregate keeps what the bytes say.
fn has_cells(cells: &[Cell]) -> bool {
    let [one, other] = cells else {
        return false;
    };
    one.begin == 0
        && one.group == -2
        && one.totals.as_slice() == [3, -1].as_slice()
        && other.begin == 0
        && other.group == 7
        && other.totals.as_slice() == [1, 7].as_slice()
}

/// Whether the engine stands where the bytes say, and keeps what they say.
fn has_parts(parts: &MillParts) -> bool {
    match parts.operators.as_slice() {
        [
            OperatorParts::Join(left, right),
            OperatorParts::Aggregate(cells),
        ] => {
            parts.next == 1
                && has_sides(left.as_slice(), right.as_slice())
                && has_cells(cells.as_slice())
        }
        _ => false,
    }
}

#[test]
fn a_snapshot_is_read(rt: HostRuntime) -> Result<(), Fail> {
    let alloc = rt.alloc();
    let plan = plan(alloc, join_operators(alloc)?)?;
    let snapshot = read_snapshot(alloc, &plan, 0, SAVED)?;
    assert!(rt; has_head(&snapshot));
    let parts = snapshot.mill().parts(alloc)?;
    assert!(rt; has_parts(&parts));
    Ok(())
}

/// Why these bytes were not read as a snapshot of the plan's fragment.
fn fault_of(alloc: Global, plan: &Plan, bytes: &[u8]) -> Option<ReadFault>
    requires known { 0 < length plan.now.frags }
    requires sound { AreSoundFrags plan.now.frags }
{
    read_snapshot(alloc, plan, 0, bytes).err()
}

/// The bytes of the snapshot with this one in the place of so many from a place on.
fn changed(alloc: Global, place: usize, count: usize, other: u8) -> Result<Vec<u8>, AllocError> {
    let mut bytes = SAVED.to_vec(alloc)?;
    for byte in bytes.iter_mut().skip(place).take(count) {
        *byte = other;
    }
    Ok(bytes)
}

#[test]
fn what_can_not_be_is_none(rt: HostRuntime) -> Result<(), Fail> {
    let alloc = rt.alloc();
    let plan = plan(alloc, join_operators(alloc)?)?;
    // a tuple of the join at time 16, past the bucket's begin, and a base of 2^64 - 1
    let late = changed(alloc, WAITING, 1, 16)?;
    assert!(rt; fault_of(alloc, &plan, &late) == Some(ReadFault::NoReading));
    let past = changed(alloc, BASE, 8, 0xff)?;
    assert!(rt; fault_of(alloc, &plan, &past) == Some(ReadFault::NoReading));
    // while a time of 5 and a base of 2^64 - 3, with two tuples, can be
    assert!(rt; fault_of(alloc, &plan, &changed(alloc, WAITING, 1, 5)?).is_none());
    let mut greatest = past;
    if let Some(byte) = greatest.get_mut(BASE + 7) {
        *byte = 0xfd;
    }
    assert!(rt; fault_of(alloc, &plan, &greatest).is_none());
    Ok(())
}

#[test]
fn what_is_cut_or_goes_on_is_none(rt: HostRuntime) -> Result<(), Fail> {
    let alloc = rt.alloc();
    let plan = plan(alloc, join_operators(alloc)?)?;
    for end in 0..SAVED.len() {
        assert!(rt; fault_of(alloc, &plan, &SAVED[..end]) == Some(ReadFault::NoReading));
    }
    let mut more = SAVED.to_vec(alloc)?;
    more.push(0)?;
    assert!(rt; fault_of(alloc, &plan, &more) == Some(ReadFault::NoReading));
    Ok(())
}
