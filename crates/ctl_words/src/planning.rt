//! The commands that open links by a plan, and that send files again.
use crate::fault::WordsFault;
use crate::reading::{only_options, transaction_of, usage};
use crate::words::{ResendWords, Task, WindowsWords};
use clap::ArgMatches;
use std::alloc::Global;

const WINDOWS_OPTIONS: [&str; 1] = ["check"];

const RESEND_OPTIONS: [&str; 1] = ["log"];

/// The task of `windows`, by one plan.
pub(crate) fn windows_task<'a>(
    alloc: Global,
    matches: &ArgMatches<'a>,
    plans: &[&'a str],
) -> Result<Task<'a>, WordsFault> {
    only_options(alloc, matches, "windows", &WINDOWS_OPTIONS)?;
    match plans {
        [plan] => Ok(Task::Windows(WindowsWords {
            plan,
            check: matches.get_flag("check"),
        })),
        _ => Err(usage(String::from_str(alloc, "error: windows needs one file with a plan\n"))),
    }
}

/// The task of `resend`, of one transaction; the files after the options are logs too.
pub(crate) fn resend_task<'a>(
    alloc: Global,
    matches: &ArgMatches<'a>,
    word: &str,
    others: &[&'a str],
) -> Result<Task<'a>, WordsFault> {
    only_options(alloc, matches, "resend", &RESEND_OPTIONS)?;
    let Some(transaction) = transaction_of(word) else {
        return Err(usage(format!(in alloc;
            "error: resend: '{word}' is not a transaction (SOURCE.SEQ)\n"
        )));
    };
    let mut logs = Vec::new(alloc);
    match (matches.get_str("log"), others) {
        (Some(first), others) => {
            logs.extend_from_slice(&[first])?;
            logs.extend_from_slice(others)?;
        }
        (None, []) => {}
        (None, [other, ..]) => {
            return Err(usage(format!(in alloc; "error: resend doesn't take the word '{other}'\n")));
        }
    }
    Ok(Task::Resend(ResendWords { transaction, logs }))
}
