use script_io::{BLOCK_OCTETS, LINE_OCTETS, NextLine, ReplayFault, in_blocks, next_line};
use std::alloc::Global;
use std::io;
use std::io::{BufRead, Error, ErrorKind, Read};
use std::test::*;

// A reader that returns an error of this kind, mostly an interruption, `times` times in a row before each read. A
// broken one fails instead of ending.
#[derive(Drop)]
struct SlowReader<'a> {
    kind: ErrorKind,
    times: u32,
    left: u32,
    is_broken: bool,
    rest: &'a [u8],
}

impl Read for SlowReader<'_> {
    fn read(&mut self, buf: &mut [u8]) -> io::Result<usize> {
        if self.left > 0 {
            self.left -= 1;
            return Err(Error::from(self.kind));
        }
        if self.is_broken && self.rest.is_empty() {
            return Err(Error::from(ErrorKind::TimedOut));
        }
        self.left = self.times;
        self.rest.read(buf)
    }
}

// A text, with how often each read of it is interrupted.
fn slow(times: u32, text: &[u8]) -> SlowReader<'_> {
    SlowReader {
        kind: ErrorKind::Interrupted,
        times,
        left: times,
        is_broken: false,
        rest: text,
    }
}

// Whether a reader has these lines, and then this ending.
fn has_lines<B: BufRead>(
    alloc: Global,
    reader: &mut B,
    lines: &[&[u8]],
    ending: Result<NextLine, ReplayFault>,
) -> bool {
    let mut line = Vec::new(alloc);
    for expected in lines {
        if next_line(reader, &mut line) != Ok(NextLine::Line) || line.as_slice() != *expected {
            return false;
        }
    }
    next_line(reader, &mut line) == ending
}

fn reads_so(
    alloc: Global,
    reader: SlowReader<'_>,
    lines: &[&[u8]],
    ending: Result<NextLine, ReplayFault>,
) -> Result<bool, ReplayFault> {
    let mut blocks = in_blocks(alloc, reader)?;
    Ok(has_lines(alloc, &mut blocks, lines, ending))
}

#[test]
fn lines(rt: HostRuntime) -> Result<(), Fail> {
    let text = slow(0, b"a b\n\n\r\nlast");
    let lines = [b"a b".as_slice(), b"", b"\r", b"last"];
    assert!(rt; reads_so(rt.alloc(), text, &lines, Ok(NextLine::End))?);
    Ok(())
}

#[test]
fn interrupted_reads(rt: HostRuntime) -> Result<(), Fail> {
    let line = Ok(NextLine::Line);
    assert!(rt; reads_so(rt.alloc(), slow(999_999, b"ab\n"), &[], line)?);
    let fault = Err(ReplayFault::Read);
    assert!(rt; reads_so(rt.alloc(), slow(1_000_000, b"ab\n"), &[], fault)?);
    Ok(())
}

#[test]
fn broken_reads(rt: HostRuntime) -> Result<(), Fail> {
    let fault = Err(ReplayFault::Read);
    let broken = SlowReader {
        is_broken: true,
        ..slow(0, b"ab\ncd")
    };
    assert!(rt; reads_so(rt.alloc(), broken, &[b"ab"], fault)?);
    // it is not asked again, though it would continue
    let broken = SlowReader {
        kind: ErrorKind::TimedOut,
        ..slow(1, b"ab\n")
    };
    assert!(rt; reads_so(rt.alloc(), broken, &[], fault)?);
    Ok(())
}

// How many octets a line has, how often reading each block of it is interrupted, what follows, and what is read.
const LONG: [(usize, u32, &[u8], NextLine); 5] = [
    (BLOCK_OCTETS + 1, 999_999, b"\n", NextLine::Line),
    (LINE_OCTETS, 0, b"", NextLine::Line),
    (LINE_OCTETS, 0, b"\n", NextLine::Line),
    (LINE_OCTETS + 1, 0, b"", NextLine::TooLong),
    (LINE_OCTETS + 1, 0, b"\n", NextLine::TooLong),
];

fn long_text(alloc: Global, octets: usize, end: &[u8]) -> Result<Vec<u8>, ReplayFault> {
    let mut text = vec![in alloc; b'x'; octets]?;
    text.extend_from_slice(end)?;
    Ok(text)
}

// What is read of a text, and how many octets the line then has.
fn read(alloc: Global, reader: SlowReader<'_>) -> Result<(NextLine, usize), ReplayFault> {
    let mut blocks = in_blocks(alloc, reader)?;
    let mut line = Vec::new(alloc);
    let next = next_line(&mut blocks, &mut line)?;
    Ok((next, line.len()))
}

#[test]
fn long_lines(rt: HostRuntime) -> Result<(), Fail> {
    for (octets, times, end, expected) in LONG {
        let text = long_text(rt.alloc(), octets, end)?;
        let (next, length) = read(rt.alloc(), slow(times, text.as_slice()))?;
        assert!(rt; next == expected && (expected == NextLine::TooLong || length == octets));
    }
    Ok(())
}
