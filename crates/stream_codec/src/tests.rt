//! What no clause says: that frames are written and read where there is memory, and their bytes as the format's description
//! shows them.
use crate::decoding::decode;
use crate::encoding::encode;
use crate::faults::DecodeFault;
use crate::frames::Frame;
use dpc_model::messages::Event;
use dpc_model::tuples::{Item, Tuple, Vals};
use std::alloc::{AllocError, Global};
use std::test::Fail;

/// Why these bytes are no frame.
fn fault_of(alloc: Global, bytes: &[u8]) -> Option<DecodeFault> {
    decode(alloc, bytes).err()
}

#[test]
fn the_first_fault_is_told(rt: HostRuntime) {
    let alloc = rt.alloc();
    let cases: [(&[u8], DecodeFault); 9] = [
        (b"", DecodeFault::Short),
        (b"\x09", DecodeFault::BadKind(9)),
        (b"\x01\0\0\0\x18", DecodeFault::BadLength(24)),
        (
            b"\x01\0\0\0\x19\0\0\0\0\0\0\0\0\x40\0\0\0\0\0\0\0\x01\0\0\0\0\0\0\0\x05",
            DecodeFault::BadValue(13),
        ),
        (
            b"\x01\0\0\0\x19\0\0\0\0\0\0\0\0\0\0\0\0\0\0\0\x03\x02\0\0\0\0\0\0\0\x05",
            DecodeFault::BadValue(21),
        ),
        (b"\x13\0\0\0\x03\0\x01\0", DecodeFault::BadValue(7)),
        (
            b"\x12\0\0\0\x0a\0\x60\0\0\0\0\0\0\0\x01",
            DecodeFault::BadValue(5),
        ),
        (b"\x06\0\0\0\x02\0\x10", DecodeFault::BadValue(5)),
        (b"\x05\0\0\0", DecodeFault::Short),
    ];
    for (bytes, fault) in cases {
        assert!(rt; fault_of(alloc, bytes) == Some(fault));
    }
}

/// A tuple of time 3.
fn tuple(alloc: Global, values: &[i64]) -> Result<Tuple, AllocError> {
    let vals = Vals::from_slice(alloc, values)?;
    Ok(Tuple { stime: 3, vals })
}

#[test]
fn frames_have_these_bytes(rt: HostRuntime) -> Result<(), Fail> {
    let alloc = rt.alloc();
    assert!(rt;
        matches!(
            decode(alloc, b"\x05\0\0\0\0\xff"),
            Ok((Frame::Item(Item::RecDone), 5))
        )
    );
    let undo = b"\x04\0\0\0\x08\0\0\0\0\0\0\0\x02";
    assert!(rt; matches!(decode(alloc, undo), Ok((Frame::Item(Item::Undo(2)), 13))));
    let Ok(bytes) = encode(alloc, &Frame::Item(Item::Undo(2))) else {
        return Err(Fail::new("no memory"));
    };
    assert_eq!(rt; bytes.as_slice(), undo.as_slice());
    let stable = b"\x01\0\0\0\x19\0\0\0\0\0\0\0\0\0\0\0\0\0\0\0\x03\x01\0\0\0\0\0\0\0\x05";
    let Ok((Frame::Item(Item::Stable(0, read)), 30)) = decode(alloc, stable) else {
        return Err(Fail::new("another frame"));
    };
    assert_eq!(rt; read.stime, 3);
    assert_eq!(rt; read.vals.as_slice(), [5].as_slice());
    let Ok(bytes) = encode(alloc, &Frame::Item(Item::Stable(0, tuple(alloc, &[5])?))) else {
        return Err(Fail::new("no memory"));
    };
    assert_eq!(rt; bytes.as_slice(), stable.as_slice());
    Ok(())
}

/// A frame of each kind.
fn frames(alloc: Global) -> Result<Vec<Frame>, AllocError> {
    let long = tuple(alloc, &[i64::MIN, -1, 0, 1, i64::MAX, 2, 3, 4])?;
    let short = tuple(alloc, &[-2])?;
    Ok(vec![in alloc;
        Frame::Item(Item::Stable(u64::MAX, long)),
        Frame::Item(Item::Tentative(short)),
        Frame::Item(Item::Boundary(1 << 62, 1)),
        Frame::Item(Item::Undo(0)),
        Frame::Item(Item::RecDone),
        Frame::Item(Item::Passed(7)),
        Frame::Head(15),
        Frame::Tail {
            stable: 2,
            bound: 1,
            tentative: 0
        },
        Frame::Entry(Event::Phase(1)),
        Frame::Entry(Event::Emit(0, 10)),
        Frame::Entry(Event::Release(0, 20)),
        Frame::Entry(Event::Cut(1, 2)),
        Frame::Entry(Event::Heal(2, 1)),
        Frame::Entry(Event::Crash(95)),
        Frame::Entry(Event::Restart(1, 2)),
        Frame::Entry(Event::Deliver(3)),
        Frame::Entry(Event::Tick(3, 0)),
        Frame::Entry(Event::Mill(2, 16)),
    ]?)
}

#[test]
fn a_frame_that_is_cut_is_short(rt: HostRuntime) -> Result<(), Fail> {
    let alloc = rt.alloc();
    for frame in &frames(alloc)? {
        let Ok(bytes) = encode(alloc, frame) else {
            return Err(Fail::new("no memory"));
        };
        for end in 0..bytes.len() {
            assert!(rt; fault_of(alloc, &bytes[..end]) == Some(DecodeFault::Short));
        }
        assert!(rt; matches!(decode(alloc, &bytes), Ok((_, size)) if size == bytes.len()));
    }
    Ok(())
}
