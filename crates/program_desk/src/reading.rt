//! Reads lines of commands.
use crate::desk::Desk;
use crate::said::{Said, said_by};
use entity_config::Config;
use memchr::memchr;
use program_start::FileReader;
use script_io::{INTERRUPTIONS, NextLine, ReplayFault, next_line};
use std::alloc::Global;
use std::io::{BufRead, ErrorKind};
use std::sync::Wait;
use std::time::Clock;

/// Reads lines of commands and leaves them parsed at the desk, until `quit`, the end of the input, a fault of the
/// reader, or until the desk is closed. The file of a Put is read before the next line.
pub fn read_lines<R: Wait + Clock, F: FileReader, B: BufRead>(
    rt: &R,
    alloc: Global,
    files: &F,
    config: &Config,
    reader: &mut B,
    desk: &Desk,
) {
    let mut line = Vec::new(alloc);
    for _ in rt.forever() {
        let wants_more = match next_line(reader, &mut line) {
            Ok(NextLine::Line) => leave_line(rt, alloc, files, config, line.as_slice(), desk),
            Ok(NextLine::TooLong) => {
                desk.leave_line(rt, Said::Bad(Vec::new(alloc)), None) && skip_line(rt, reader)
            },
            Ok(NextLine::End) | Err(ReplayFault::Read) => false,
            Err(_) => {
                desk.fail_lines(rt);
                false
            }
        };
        if !wants_more {
            break;
        }
    }
    desk.end_lines(rt);
}

// Leaves one line; returns whether more are to be read.
fn leave_line<R: Wait + Clock, F: FileReader>(
    rt: &R,
    alloc: Global,
    files: &F,
    config: &Config,
    line: &[u8],
    desk: &Desk,
) -> bool {
    let said = said_by(rt, alloc, files, config, line, desk);
    desk.leave_line(rt, said, None) && line != b"quit".as_slice()
}

// Skips to after the next line feed; returns whether there was one.
fn skip_line<R: Wait, B: BufRead>(rt: &R, reader: &mut B) -> bool {
    let mut interruptions = 0u32;
    for _ in rt.forever() {
        match reader.fill_buf() {
            Ok(block) => {
                interruptions = 0;
                let feed = memchr(b'\n', block);
                let length = block.len();
                match feed {
                    Some(at) => {
                        reader.consume(at + 1);
                        return true;
                    }
                    None if length == 0 => return false,
                    None => reader.consume(length),
                }
            }
            Err(error) => {
                interruptions = interruptions.saturating_add(1);
                if error.kind() != ErrorKind::Interrupted || interruptions >= INTERRUPTIONS {
                    return false;
                }
            }
        }
    }
    false
}
