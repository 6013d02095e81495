//! Receives and sends files by CFDP over UDP, as one entity, and carries out lines of commands from the standard input.
#![tactic(auto)]

use cfdp_serve::{Streams, serve};
use program_start::RuntimeFiles;
use program_words::{line_of, tell_words_fault};
use std::io;
use std::io::IsTerminal;
use std::process::ExitCode;

// Serves as the command line says. If the standard error is a terminal, it explains there why the server ended too
// early.
fn main(rt: HostRuntime) -> ExitCode {
    let mut errors = rt.stderr();
    let explains = errors.is_terminal();
    let status = match line_of(&rt) {
        Ok(words) => {
            let streams = Streams {
                reader: rt.reader(),
                writer: io::writer(&rt),
            };
            let files = RuntimeFiles::new(rt);
            serve(rt, &files, words.as_slice(), streams, &mut errors, explains)
        }
        Err(fault) => tell_words_fault(rt.alloc(), &mut errors, "cfdp_server", fault),
    };
    ExitCode::from(status)
}
