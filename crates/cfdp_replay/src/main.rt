//! Runs a script of PDUs, requests, timers, store results and takes through one protocol entity, and prints its
//! answers.
#![tactic(auto)]

mod explaining;
mod playing;
mod words;

use playing::run;
use script_replay::{AnswerPace, play_to_end};
use std::io;
use std::io::IsTerminal;
use std::process::ExitCode;
use words::has_words;

// Does what the command line asks for. Without words it plays the standard input to the standard output. It plays line
// by line if the output is a terminal.
fn main(rt: HostRuntime) -> ExitCode {
    let pace = if rt.stdout().is_terminal() {
        AnswerPace::ByLines
    } else {
        AnswerPace::ByBlocks
    };
    let mut input = rt.reader();
    let mut output = io::writer(&rt);
    let mut errors = rt.stderr();
    let status = if has_words(&rt) {
        run(&rt, &mut input, &mut output, &mut errors, pace)
    } else {
        play_to_end(rt.alloc(), &mut input, &mut output, &mut errors, pace)
    };
    ExitCode::from(status)
}
