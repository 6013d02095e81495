use script_io::{ReplayFault, conclude, write_whole};
use std::alloc::Global;
use std::io;
use std::io::{Error, ErrorKind, Write};
use std::test::*;

// A writer that returns an error of this kind, mostly an interruption, `times` times in a row before each write. It
// takes nothing in its first `idle` writes, then two octets at a time, and nothing once it is full.
#[derive(Drop)]
struct SlowWriter {
    kind: ErrorKind,
    times: u32,
    left: u32,
    idle: u32,
    room: usize,
    taken: Vec<u8>,
}

impl Write for SlowWriter {
    fn write(&mut self, buf: &[u8]) -> io::Result<usize> {
        if self.left > 0 {
            self.left -= 1;
            return Err(Error::from(self.kind));
        }
        self.left = self.times;
        if self.idle > 0 {
            self.idle -= 1;
            return Ok(0);
        }
        let n = buf.len().min(2).min(self.room);
        self.taken.extend_from_slice(&buf[..n])?;
        self.room -= n;
        Ok(n)
    }

    fn flush(&mut self) -> io::Result<()> {
        Ok(())
    }
}

// A writer with this much room, which gives this error `times` times before each write, and takes nothing for `idle`
// writes.
fn writer_with(alloc: Global, kind: ErrorKind, times: u32, idle: u32, room: usize) -> SlowWriter {
    SlowWriter {
        kind,
        times,
        left: times,
        idle,
        room,
        taken: Vec::new(alloc),
    }
}

const INTERRUPTED: ErrorKind = ErrorKind::Interrupted;

// A writer's error, how often it comes, idle writes, room; how writing a text ends, and what the writer has then.
const WRITES: [(ErrorKind, u32, u32, usize, Result<(), ReplayFault>, &[u8]); 7] = [
    (INTERRUPTED, 0, 0, 9, Ok(()), b"hello"),
    (INTERRUPTED, 0, 0, 3, Err(ReplayFault::Write), b"hel"),
    (INTERRUPTED, 0, 0, 0, Err(ReplayFault::Write), b""),
    (INTERRUPTED, 0, 1, 9, Err(ReplayFault::Write), b""),
    (INTERRUPTED, 999_999, 0, 9, Ok(()), b"hello"),
    (INTERRUPTED, 1_000_000, 0, 9, Err(ReplayFault::Write), b""),
    (ErrorKind::TimedOut, 1, 0, 9, Err(ReplayFault::Write), b""),
];

fn writes_so(writer: &mut SlowWriter, expected: Result<(), ReplayFault>, taken: &[u8]) -> bool {
    write_whole(writer, b"hello") == expected && writer.taken.as_slice() == taken
}

#[test]
fn writes(rt: HostRuntime) {
    for (kind, times, idle, room, expected, taken) in WRITES {
        let mut writer = writer_with(rt.alloc(), kind, times, idle, room);
        assert!(rt;
            writes_so(&mut writer, expected, taken),
            "{times} {idle} {room}"
        );
    }
}

// An end of a run, with the answers, the errors and the exit status that it leaves.
const ENDS: [(Result<(), ReplayFault>, &[u8], &[u8], u8); 5] = [
    (Ok(()), b"", b"", 0),
    (Err(ReplayFault::BadLine(7)), b"line 7: bad line\n", b"", 1),
    (Err(ReplayFault::Read), b"", b"read fault\n", 1),
    (Err(ReplayFault::Write), b"", b"write fault\n", 1),
    (Err(ReplayFault::NoMemory), b"", b"no memory\n", 1),
];

fn ends_so(
    ended: Result<(), ReplayFault>,
    writer: &mut SlowWriter,
    errors: &mut SlowWriter,
    expected: (&[u8], &[u8], u8),
) -> bool {
    let status = conclude(ended, writer, errors);
    (writer.taken.as_slice(), errors.taken.as_slice(), status) == expected
}

#[test]
fn ends(rt: HostRuntime) {
    for (ended, printed, told, status) in ENDS {
        let mut writer = writer_with(rt.alloc(), INTERRUPTED, 0, 0, 64);
        let mut errors = writer_with(rt.alloc(), INTERRUPTED, 0, 0, 64);
        assert!(rt;
            ends_so(ended, &mut writer, &mut errors, (printed, told, status)),
            "{status}"
        );
    }
}
