//! The commands that choose transactions.
use crate::fault::WordsFault;
use crate::reading::{number_of, only_options, transaction_of, usage};
use crate::words::{ActWords, Choice, HistoryWords, Task, Verb};
use clap::ArgMatches;
use std::alloc::Global;

const HISTORY_OPTIONS: [&str; 5] = ["json", "log", "since", "remote", "failed"];

const ACT_OPTIONS: [&str; 4] = ["all", "remote", "user", "yes"];

/// The task of `history`; the files after the options are logs too.
pub(crate) fn history_task<'a>(
    alloc: Global,
    matches: &ArgMatches<'a>,
    others: &[&'a str],
) -> Result<Task<'a>, WordsFault> {
    only_options(alloc, matches, "history", &HISTORY_OPTIONS)?;
    let Some(first) = matches.get_str("log") else {
        return Err(usage(String::from_str(alloc, "error: history needs --log FILE\n")));
    };
    let mut logs = Vec::new(alloc);
    logs.extend_from_slice(&[first])?;
    logs.extend_from_slice(others)?;
    Ok(Task::History(HistoryWords {
        json: matches.get_flag("json"),
        since: matches.get_str("since"),
        remote: number_of(alloc, matches, "remote", 0, u64::MAX)?,
        failed: matches.get_flag("failed"),
        logs,
    }))
}

/// The command for transactions that the words give; `None` if the server reads them as they are.
pub(crate) fn act_asked<'a>(
    alloc: Global,
    matches: &ArgMatches<'a>,
    words: &[&'a str],
) -> Result<Option<ActWords<'a>>, WordsFault> {
    match words {
        [name] => match verb_of(name) {
            Some(verb) if chooses(matches) => many(alloc, matches, name, verb),
            _ => Ok(None),
        },
        [name, word] => match (verb_of(name), transaction_of(word)) {
            (Some(verb), Some(transaction)) => {
                only_options(alloc, matches, name, &["yes"])?;
                Ok(Some(ActWords {
                    verb,
                    choice: Choice::One(transaction),
                    yes: true,
                }))
            }
            _ => Ok(None),
        },
        _ => Ok(None),
    }
}

// Whether options choose several transactions.
fn chooses(matches: &ArgMatches<'_>) -> bool {
    matches.get_flag("all") || matches.contains_id("remote") || matches.contains_id("user")
}

fn many<'a>(
    alloc: Global,
    matches: &ArgMatches<'a>,
    name: &str,
    verb: Verb,
) -> Result<Option<ActWords<'a>>, WordsFault> {
    only_options(alloc, matches, name, &ACT_OPTIONS)?;
    let remote = number_of(alloc, matches, "remote", 0, u64::MAX)?;
    let user = matches.get_str("user");
    if matches.get_flag("all") && (remote.is_some() || user.is_some()) {
        return Err(usage(String::from_str(
            alloc,
            "error: --all doesn't go with --remote or --user\n",
        )));
    }
    Ok(Some(ActWords {
        verb,
        choice: Choice::Many(remote, user),
        yes: matches.get_flag("yes"),
    }))
}

fn verb_of(name: &str) -> Option<Verb> {
    match name {
        "cancel" => Some(Verb::Cancel),
        "suspend" => Some(Verb::Suspend),
        "resume" => Some(Verb::Resume),
        "abandon" => Some(Verb::Abandon),
        _ => None,
    }
}
