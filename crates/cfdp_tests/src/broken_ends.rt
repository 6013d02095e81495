//! A script whose reader or writer fails at one of its calls: each call is tried in turn. And when answers are written.

use script_replay::{AnswerPace, ReplayFault, play_to_end, replay, replay_at};
use std::alloc::Global;
use std::io;
use std::io::{Error, ErrorKind, Read, Write};
use std::process::Abort;
use std::test::*;

const SCRIPT: &[u8] = b"take alice\npump 2 4\nreport alice 2 4\npdu 24\ntake bob\n#\n";

// What the script prints: nothing for its last line.
const PRINTED: &[u8] =
    b"none\nrefused 1 NoTransaction\nrefused 1 NoTransaction\nrefused 20 DecodeFault 1\nnone\n";

// How many octets each read gives and each write takes at most. The script has 55 octets, which takes eight reads, and
// one that finds the end; what it prints has 83 octets, which takes 17 writes.
const READ_OCTETS: usize = 7;

const WRITE_OCTETS: usize = 5;

const WRITES: usize = 17;

// Each read, and how many octets are printed if it fails: the answers to the lines that came whole before.
const BEFORE_READS: [(usize, usize); 9] = [
    (1, 0),
    (2, 0),
    (3, 5),
    (4, 29),
    (5, 29),
    (6, 29),
    (7, 53),
    (8, 78),
    (9, 83),
];

// Reads in small pieces, and fails at one of its calls.
#[derive(Drop)]
struct FailingReader<'a> {
    rest: &'a [u8],
    calls: usize,
    fails_at: usize,
}

impl Read for FailingReader<'_> {
    fn read(&mut self, buf: &mut [u8]) -> io::Result<usize> {
        self.calls = self.calls.saturating_add(1);
        if self.calls == self.fails_at {
            return Err(Error::from(ErrorKind::TimedOut));
        }
        let count = buf.len().min(READ_OCTETS);
        self.rest.read(&mut buf[..count])
    }
}

// Takes pieces, and fails at one of its calls.
#[derive(Drop)]
struct FailingWriter {
    taken: Vec<u8>,
    octets: usize,
    calls: usize,
    fails_at: usize,
}

impl Write for FailingWriter {
    fn write(&mut self, buf: &[u8]) -> io::Result<usize> {
        self.calls = self.calls.saturating_add(1);
        if self.calls == self.fails_at {
            return Err(Error::from(ErrorKind::TimedOut));
        }
        let count = buf.len().min(self.octets);
        self.taken.extend_from_slice(&buf[..count])?;
        Ok(count)
    }

    fn flush(&mut self) -> io::Result<()> {
        Ok(())
    }
}

fn reader(fails_at: usize) -> FailingReader<'static> {
    FailingReader {
        rest: SCRIPT,
        calls: 0,
        fails_at,
    }
}

fn writer(alloc: Global, octets: usize, fails_at: usize) -> FailingWriter {
    FailingWriter {
        taken: Vec::new(alloc),
        octets,
        calls: 0,
        fails_at,
    }
}

// Plays the script with a reader and a writer that fail at these calls; no call has the number 0.
fn check_run<R: AllocGlobal + Abort>(
    rt: &R,
    read: usize,
    write: usize,
    ended: Result<(), ReplayFault>,
    octets: usize,
) {
    let mut writer = writer(rt.alloc(), WRITE_OCTETS, write);
    assert!(rt;
        replay(rt.alloc(), &mut reader(read), &mut writer) == ended,
        "read {read}, write {write}"
    );
    assert!(rt;
        writer.taken.as_slice() == &PRINTED[..octets.min(PRINTED.len())],
        "{octets}"
    );
}

#[test]
fn each_read_fails(rt: HostRuntime) {
    for (read, octets) in BEFORE_READS {
        check_run(&rt, read, 0, Err(ReplayFault::Read), octets);
    }
    check_run(&rt, 10, 0, Ok(()), 83);
}

#[test]
fn each_write_fails(rt: HostRuntime) {
    for calls in 0..WRITES {
        check_run(
            &rt,
            0,
            calls + 1,
            Err(ReplayFault::Write),
            WRITE_OCTETS * calls,
        );
    }
    check_run(&rt, 0, WRITES + 1, Ok(()), 83);
}

// A failed read is reported to the errors, not among the answers.
#[test]
fn what_is_told(rt: HostRuntime) {
    let mut printed = writer(rt.alloc(), WRITE_OCTETS, 0);
    let mut told = writer(rt.alloc(), WRITE_OCTETS, 0);
    let pace = AnswerPace::ByBlocks;
    let status = play_to_end(rt.alloc(), &mut reader(9), &mut printed, &mut told, pace);
    assert_eq!(rt; status, 1);
    assert!(rt; told.taken.as_slice() == b"read fault\n".as_slice());
}

// A run by lines writes the answer of each line separately, one by blocks all of them together.
#[test]
fn paces(rt: HostRuntime) {
    for (pace, calls) in [(AnswerPace::ByLines, 5), (AnswerPace::ByBlocks, 1)] {
        let mut writer = writer(rt.alloc(), 100, 0);
        assert!(rt; replay_at(rt.alloc(), &mut reader(0), &mut writer, pace).is_ok());
        assert_eq!(rt; writer.calls, calls);
        assert!(rt; writer.taken.as_slice() == PRINTED);
    }
}
