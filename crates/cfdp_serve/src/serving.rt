//! The server from its command line to its exit status.
use crate::opening::{Streams, open};
use entity_config::Config;
use event_log::LogFiles;
use program_start::{FileReader, ProgramFault};
use script_io::in_blocks;
use server_opening::{Start, begin, tell_end};
use server_recording::ServerFiles;
use std::alloc::Global;
use std::io::{BufRead, Read, Write};
use std::net::Net;
use std::rt::Files;
use std::sync::Wait;
use std::thread::Threads;
use std::time::Clock;

/// Runs the server by its command line, whose first word is the program's own name, until `quit` or the end of its
/// commands. Returns the exit status: 0, or 1 if it ended too early; `errors` then says why. With a station's file,
/// clients command the server over its socket, and neither of the streams is used; a second line of `errors` explains
/// the fault, as it does after a check of a file. Otherwise the commands come from `streams.reader` and the replies go
/// to `streams.writer`; a second line is for a person who reads `errors`, if `explains`. Files to be sent are read by
/// `files`, beside the main thread. If the output can't be written, the server ends once the reader has given one more
/// line or its end.
pub fn serve<
    R: Threads + Wait + Net + Clock + Files + AllocGlobal + Copy + Drop + Send + Sync,
    F: FileReader + ServerFiles + LogFiles + Sync,
    I: Read + Send + Drop,
    W: Write + Drop,
    E: Write,
>(
    rt: R,
    files: &F,
    words: &[String],
    streams: Streams<I, W>,
    errors: &mut E,
    explains: bool,
) -> u8 {
    let alloc: Global = rt.alloc();
    let mut why = String::new(alloc);
    let Streams { reader, writer } = streams;
    let ended = match in_blocks(alloc, reader) {
        Ok(reader) => {
            let told = (words, explains);
            let streams = Streams { reader, writer };
            serve_told(&rt, alloc, files, told, streams, errors, &mut why)
        }
        Err(_) => Err(ProgramFault::NoMemory),
    };
    tell_end(alloc, errors, &ended, why.as_str())
}

// Serves what the command line asks for, if that is more than an answer.
fn serve_told<
    R: Threads + Wait + Net + Clock + Files + AllocGlobal + Copy + Drop + Send + Sync,
    F: FileReader + ServerFiles + LogFiles + Sync,
    B: BufRead + Send + Drop,
    W: Write + Drop,
    E: Write,
>(
    rt: &R,
    alloc: Global,
    files: &F,
    (words, explains): (&[String], bool),
    streams: Streams<B, W>,
    errors: &mut E,
    why: &mut String,
) -> Result<u8, ProgramFault> {
    let mut streams = streams;
    match begin(
        rt,
        alloc,
        words,
        (&mut streams.writer, errors),
        explains,
        why,
    )? {
        Some(started) => serve_started(rt, alloc, files, started, streams, why),
        None => Ok(0),
    }
}

// Serves, and says why, if it fails.
fn serve_started<
    R: Threads + Wait + Net + Clock + Files + AllocGlobal + Copy + Drop + Send + Sync,
    F: FileReader + ServerFiles + LogFiles + Sync,
    B: BufRead + Send + Drop,
    W: Write + Drop,
>(
    rt: &R,
    alloc: Global,
    files: &F,
    (started, config): (Start<'_>, Config),
    streams: Streams<B, W>,
    why: &mut String,
) -> Result<u8, ProgramFault> {
    let ended = open(rt, alloc, files, &started, config, streams);
    if let Err(fault) = &ended {
        started.push_cause(rt, alloc, why, fault);
    }
    ended
}
