//! What no clause says: that the calls succeed, and the pieces as a person counts them.
use crate::counted::Counted;
use crate::gate::{Gate, OpenGate};
use crate::memory::{MemSink, MemSource};
use crate::sink::Sink;
use crate::source::Source;
use std::test::Fail;

#[test]
fn memory_moves_pieces_and_fails_listed_calls(rt: HostRuntime) -> Result<(), Fail> {
    let bytes = b"borealis".to_vec(rt.alloc())?;
    let mut source = MemSource::new(bytes, 3, vec![in rt.alloc(); 1]?);
    let mut buffer = [0u8; 4];
    assert_eq!(rt; source.read(&mut buffer).ok(), Some(3));
    assert_eq!(rt; buffer.as_slice(), b"bor\0".as_slice());
    assert!(rt; source.read(&mut buffer).is_err());
    assert_eq!(rt; source.read(&mut buffer).ok(), Some(3));
    assert_eq!(rt; source.read(&mut buffer).ok(), Some(2));
    assert_eq!(rt; source.read(&mut buffer).ok(), Some(0));

    let mut sink = MemSink::new(vec![in rt.alloc(); 0; 5]?, 4, vec![in rt.alloc(); 1]?);
    assert_eq!(rt; sink.write(b"stream").ok(), Some(4));
    assert!(rt; sink.write(b"am").is_err());
    assert_eq!(rt; sink.write(b"am").ok(), Some(1));
    assert!(rt; sink.write(b"m").is_err());
    assert_eq!(rt; sink.write(b"").ok(), Some(0));
    assert_eq!(rt; sink.bytes(), b"strea".as_slice());
    Ok(())
}

#[test]
fn standard_streams_move_bytes(rt: HostRuntime) {
    let mut buffer = [0u8; 4];
    let mut input = Counted::new(rt.stdin());
    assert!(rt; input.read(&mut buffer).is_ok());
    let mut output = Counted::new(rt.stdout());
    assert_eq!(rt; output.write(b"to standard output\n").ok(), Some(19));
    let mut error = Counted::new(rt.stderr());
    assert_eq!(rt; error.write(b"to standard error\n").ok(), Some(18));
    OpenGate.at_mill(0);
    OpenGate.at_event(0);
    OpenGate.at_look(0);
}
