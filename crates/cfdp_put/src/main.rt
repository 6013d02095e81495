//! Sends one file by CFDP over UDP, and prints the indications of its user.
#![tactic(auto)]

use cfdp_send::{Outputs, put_one};
use program_words::{line_of, tell_words_fault};
use std::io;
use std::io::IsTerminal;
use std::process::ExitCode;

// Puts the file that the command line names. If the standard error is a terminal, progress is shown there.
fn main(rt: HostRuntime) -> ExitCode {
    let status = match line_of(&rt) {
        Ok(words) => {
            let errors = rt.stderr();
            let is_terminal = errors.is_terminal();
            let progress = if is_terminal { Some(rt.stderr()) } else { None };
            let outputs = Outputs::new(io::writer(&rt), progress);
            put_one(rt, words.as_slice(), outputs, &mut rt.stderr(), is_terminal)
        }
        Err(fault) => tell_words_fault(rt.alloc(), &mut rt.stderr(), "cfdp_put", fault),
    };
    ExitCode::from(status)
}
