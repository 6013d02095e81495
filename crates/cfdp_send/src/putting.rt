//! Starts the program.
use crate::named::put_named;
use crate::outputs::Outputs;
use crate::threads::{Run, Wanted};
use cfdp_types::{PutFault, PutRequest};
use entity_config::{Config, Setting};
use program_arrivals::Sources;
use program_numbers::{HeldNumbers, Puts};
use program_start::{
    ProgramFault, Started, load_config, load_file, push_explanation, tell_explanation, tell_fault,
};
use program_udp::open_socket;
use program_words::{
    PutWords, WordsFault, asked_text, asks_for_check, check_words, push_check_complaint,
    push_put_complaint, put_help, put_version, put_words,
};
use std::alloc::{AllocError, Global};
use std::io::Write;
use std::net::Net;
use std::rt::Files;
use std::sync::Wait;
use std::thread::Threads;
use std::time::Clock;

/// Puts one file from its user's first lane by the command line, whose first word is the program's own name. Prints the
/// user's indications until the transaction has ended. Returns the exit status: 0 if the receiver has the whole file, 2
/// after another end, and 1 if the program ended too early, which is reported to `errors`. With `explains`, for a
/// person who reads `errors`, a second line there explains the fault, as after a check of the configuration.
pub fn put_one<
    R: Threads + Wait + Net + Clock + Files + AllocGlobal + Copy + Drop + Send + Sync,
    W: Write + Drop,
    P: Write + Drop,
    E: Write,
>(rt: R, words: &[String], outputs: Outputs<W, P>, errors: &mut E, explains: bool) -> u8 {
    let alloc: Global = rt.alloc();
    let checks = asks_for_check(words);
    let ended = if checks {
        check(&rt, alloc, words, outputs)
    } else {
        start(&rt, alloc, words, outputs)
    };
    match ended {
        Ok(status) => status,
        Err(fault) => {
            tell_fault(alloc, errors, "cfdp_put", &fault);
            if checks || explains {
                explain(&rt, alloc, errors, words, &fault);
            }
            1
        }
    }
}

// Checks only the configuration.
fn check<R: Files, W: Write + Drop, P: Write + Drop>(
    rt: &R,
    alloc: Global,
    words: &[String],
    outputs: Outputs<W, P>,
) -> Result<u8, ProgramFault> {
    let mut outputs = outputs;
    match check_words(alloc, words) {
        Ok(path) => {
            let _config = load_config(rt, alloc, path)?;
            outputs.tell("ok\n")?;
            Ok(0)
        }
        Err(fault) => tell_about(&mut outputs, fault),
    }
}

// Prints the help or the version, if the line asks for it.
fn tell_about<W: Write + Drop, P: Write + Drop>(
    outputs: &mut Outputs<W, P>,
    fault: WordsFault,
) -> Result<u8, ProgramFault> {
    outputs.tell(asked_text(fault, put_help(), put_version())?)?;
    Ok(0)
}

// Explains a fault, if there is memory for that.
fn explain<R: Net + Files, E: Write>(
    rt: &R,
    alloc: Global,
    errors: &mut E,
    words: &[String],
    fault: &ProgramFault,
) {
    let mut text = String::new(alloc);
    if push_meaning(rt, alloc, &mut text, words, fault).is_ok() {
        tell_explanation(errors, text.as_str());
    }
}

// Adds the explanation of a fault.
fn push_meaning<R: Net + Files>(
    rt: &R,
    alloc: Global,
    text: &mut String,
    line: &[String],
    fault: &ProgramFault,
) -> Result<(), AllocError> {
    if *fault == ProgramFault::Usage {
        return push_usage(rt, alloc, text, line);
    }
    if let Ok(path) = check_words(alloc, line) {
        let started = Started::with_config(path);
        return push_explanation(rt, alloc, text, &started, fault);
    }
    match put_words(alloc, line) {
        Ok(words) => {
            let started = started_by(&words);
            push_explanation(rt, alloc, text, &started, fault)
        }
        Err(_) => Ok(()),
    }
}

// Adds which word of the command line is wrong.
fn push_usage<R: Files>(
    rt: &R,
    alloc: Global,
    text: &mut String,
    line: &[String],
) -> Result<(), AllocError> {
    if asks_for_check(line) {
        push_check_complaint(alloc, text, line)?;
    } else {
        match put_words(alloc, line) {
            Ok(words) => push_unfit(rt, alloc, text, &words)?,
            Err(_) => push_put_complaint(alloc, text, line)?,
        }
    }
    writeln!(text, "`cfdp_put --help` lists the options")
}

// Adds which word of a command line that is right in itself doesn't fit the configuration.
fn push_unfit<R: Files>(
    rt: &R,
    alloc: Global,
    text: &mut String,
    words: &PutWords<'_>,
) -> Result<(), AllocError> {
    match load_config(rt, alloc, words.config) {
        Ok(config) if config.user_of(words.user).is_none() => {
            writeln!(
                text,
                "{}: no user has the name `{}`",
                words.config, words.user
            )
        }
        _ => Ok(()),
    }
}

// The paths and addresses that explanations of a put mention.
fn started_by<'a>(words: &PutWords<'a>) -> Started<'a> {
    Started {
        config: words.config,
        bind: words.bind,
        control: None,
        numbers: words.numbers,
        outbox: None,
        source: Some(words.source),
    }
}

fn start<
    R: Threads + Wait + Net + Clock + Files + AllocGlobal + Copy + Drop + Send + Sync,
    W: Write + Drop,
    P: Write + Drop,
>(rt: &R, alloc: Global, words: &[String], outputs: Outputs<W, P>) -> Result<u8, ProgramFault> {
    let mut outputs = outputs;
    match put_words(alloc, words) {
        Ok(words) => {
            let mut config = config_by(rt, alloc, &words)?;
            let mut wanted = wanted_by(rt, alloc, &config, &words)?;
            let socket = open_socket(rt, words.bind)?;
            if let Some(path) = words.numbers {
                wanted.numbers = Some(HeldNumbers::open(rt, alloc, path, Puts::One, &mut config)?);
            }
            put_named(rt, alloc, config, &socket, Run { wanted, outputs })
        }
        Err(fault) => tell_about(&mut outputs, fault),
    }
}

// The configuration, with the first number from the command line if it gives one.
fn config_by<R: Files>(
    rt: &R,
    alloc: Global,
    words: &PutWords<'_>,
) -> Result<Config, ProgramFault> {
    let mut config = load_config(rt, alloc, words.config)?;
    if let Some(first) = words.first {
        if config.set(Setting::First(first)).is_err() {
            return Err(ProgramFault::Usage);
        }
    }
    Ok(config)
}

// What is put, and by whom: the user is looked up first, and then the file is read.
fn wanted_by<R: Files + AllocGlobal + Drop>(
    rt: &R,
    alloc: Global,
    config: &Config,
    words: &PutWords<'_>,
) -> Result<Wanted<R>, ProgramFault> {
    let Some(user) = config.user_of(words.user) else {
        return Err(ProgramFault::Usage);
    };
    let file = load_file(rt, alloc, words.source)?;
    let put = PutRequest::new(
        alloc,
        words.remote,
        words.class,
        words.source.as_bytes(),
        words.destination_name.as_bytes(),
        &[],
        &[],
    );
    match put {
        Ok(put) => Ok(Wanted {
            user,
            put: put.with_file(file).with_closure(words.closure),
            octets_a_second: words.rate,
            sources: if words.known_sources {
                Sources::KnownAlone
            } else {
                Sources::Any
            },
            numbers: None,
        }),
        Err(PutFault::NoMemory) => Err(ProgramFault::NoMemory),
        Err(_) => Err(ProgramFault::Usage),
    }
}
