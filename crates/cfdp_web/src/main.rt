//! A console in the browser, which serves a server's control socket over HTTP.
#![tactic(auto)]

mod names;
mod token;
mod words;

use crate::names::names_of;
use crate::token::token_for;
use crate::words::{HELP, USAGE_LINE, VERSION_LINE, Words, WordsFault, line_of, words_of};
use std::hash::RandomState;
use std::io;
use std::io::Write;
use std::net::{Net, TcpListener, TcpStream};
use std::process::ExitCode;
use std::random::RandomSource;
use std::rt::Files;
use std::sync::Wait;
use std::thread::Threads;
use std::time::Clock;
use web_console::{Watch, run_console};
use web_pages::Settings;

// The exit status after a fault of the program.
const FAULT: u8 = 1;

// The exit status after a command line that the program doesn't accept.
const USAGE: u8 = 2;

// Serves as the command line says.
fn main(rt: HostRuntime) -> ExitCode {
    let mut output = io::writer(&rt);
    let mut errors = rt.stderr();
    let status = match line_of(&rt) {
        Ok(line) => match words_of(rt.alloc(), line.as_slice()) {
            Ok(words) => serve(&rt, &words, &mut output, &mut errors),
            Err(fault) => say_instead(fault, &mut output, &mut errors),
        },
        Err(fault) => say_instead(fault, &mut output, &mut errors),
    };
    ExitCode::from(status)
}

// Serves until the program is ended.
fn serve<
    R: Threads
        + Wait
        + Clock
        + Net<Listener = TcpListener, Stream = TcpStream>
        + Files
        + RandomSource
        + AllocGlobal
        + Sync,
    W: Write,
    E: Write,
>(rt: &R, words: &Words<'_>, output: &mut W, errors: &mut E) -> u8 {
    let Ok(listener) = TcpListener::bind(rt, words.listen) else {
        return fail(errors, "bind fault");
    };
    let Ok(token) = token_for(rt, words) else {
        return fail(
            errors,
            "there is no token: its file can't be read, or its first line is empty or longer than 4096 octets",
        );
    };
    let Ok(names) = names_of(rt.alloc(), words) else {
        return fail(errors, "no memory");
    };
    let Ok(keys) = RandomState::new(rt) else {
        return fail(errors, "no random numbers from the system");
    };
    let _said = greet(output, words, &token);
    let settings = Settings { names, token };
    let watch = Watch::new(rt, rt.alloc(), words.control, words.windows);
    run_console(rt, rt.alloc(), keys, &listener, &settings, &watch);
    fail(errors, "start fault")
}

// Prints the console's address, and its token if that is a new one.
fn greet<W: Write>(output: &mut W, words: &Words<'_>, token: &Option<Vec<u8>>) -> io::Result<()> {
    writeln!(output, "cfdp_web: http://{}/", words.listen)?;
    if words.token_file.is_none()
        && let Some(token) = token
    {
        output.write_all(b"cfdp_web: token ".as_slice())?;
        output.write_all(token.as_slice())?;
        output.write_all(b"\n".as_slice())?;
    }
    output.flush()
}

// Prints why the program ends; returns the exit status.
fn fail<E: Write>(errors: &mut E, why: &str) -> u8 {
    let _said = writeln!(errors, "cfdp_web: {why}");
    FAULT
}

// Prints the help or the version if asked for it, or why nothing is served.
fn say_instead<W: Write, E: Write>(fault: WordsFault, output: &mut W, errors: &mut E) -> u8 {
    match fault {
        WordsFault::Help => {
            let _said = output.write_all(HELP.as_bytes());
            let _flushed = output.flush();
            0
        }
        WordsFault::Version => {
            let _said = output.write_all(VERSION_LINE.as_bytes());
            let _flushed = output.flush();
            0
        }
        WordsFault::Usage => {
            let _said = errors.write_all(USAGE_LINE.as_bytes());
            USAGE
        }
        WordsFault::NoMemory => fail(errors, "no memory"),
    }
}
