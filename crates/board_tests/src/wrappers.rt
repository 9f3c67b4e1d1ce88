//! Tests of `RecordingReader` and `RecordingWriter`: each call makes one call below, with the same
//! bytes, and returns the result of that call.
use crate::devices::{Answer, BROKEN, BYTE, Device, INTERRUPTED};
use board_report::{RecordingReader, RecordingWriter};
use std::io::{ErrorKind, Read, Write};
use std::sync::atomic::{AtomicU64, Ordering};
use std::test::Fail;

// The first answer of a device that then moves single bytes, and the bytes of `abc` that it moves.
const ANSWERS: [(Answer, &[u8]); 6] = [
    (Answer::Moves(0), b""),
    (BYTE, b"a"),
    (Answer::Moves(2), b"ab"),
    (INTERRUPTED, b""),
    (BROKEN, b""),
    (Answer::Fails(ErrorKind::WouldBlock), b""),
];

// Catches a read that makes no call or two calls below, or returns another result or other bytes:
// contracts can't name those calls.
#[test]
fn a_read_is_one_read_below(rt: HostRuntime) -> Result<(), Fail> {
    for (first, moved) in ANSWERS {
        let (plan, calls) = ([(1, first), (u64::MAX, BYTE)], AtomicU64::new(0));
        let device = Device::new(rt.alloc(), &plan, &calls, b"abc");
        let mut piece = [0u8; 3];
        let got = Answer::of(RecordingReader::new(device).read(&mut piece));
        assert!(rt; (got, calls.load(Ordering::SeqCst)) == (first, 1));
        assert!(rt; piece.starts_with(moved));
    }
    Ok(())
}

// Catches a write that makes no call or two calls below, or returns another result or writes other
// bytes: contracts can't name those calls.
#[test]
fn a_write_is_one_write_below(rt: HostRuntime) -> Result<(), Fail> {
    for (first, moved) in ANSWERS {
        let (plan, calls) = ([(1, first), (u64::MAX, BYTE)], AtomicU64::new(0));
        let mut device = Device::new(rt.alloc(), &plan, &calls, b"");
        let got = Answer::of(RecordingWriter::new(&mut device).write(b"abc"));
        assert!(rt; (got, calls.load(Ordering::SeqCst)) == (first, 1));
        assert!(rt; device.into_taken().as_slice() == moved);
    }
    Ok(())
}
