//! The command that watches a folder.
use crate::fault::WordsFault;
use crate::reading::{number_of, only_options, usage};
use crate::words::{Task, WatchWords};
use clap::ArgMatches;
use std::alloc::Global;

const WATCH_OPTIONS: [&str; 6] = ["user", "to", "class", "into", "once", "delete"];

/// The task of `watch`, of one folder.
pub(crate) fn watch_task<'a>(
    alloc: Global,
    matches: &ArgMatches<'a>,
    folders: &[&'a str],
) -> Result<Task<'a>, WordsFault> {
    only_options(alloc, matches, "watch", &WATCH_OPTIONS)?;
    let remote = number_of(alloc, matches, "to", 0, u64::MAX)?;
    let class = number_of(alloc, matches, "class", 1, 2)?;
    let delete = matches.get_flag("delete");
    if delete && class == Some(1) {
        return Err(usage(String::from_str(
            alloc,
            "error: --delete needs class 2, in which the receiver says what it keeps\n",
        )));
    }
    match (remote, folders) {
        (Some(remote), [folder]) => Ok(Task::Watch(WatchWords {
            folder,
            remote,
            user: matches.get_str("user"),
            class: class.unwrap_or(2),
            into: matches.get_str("into"),
            once: matches.get_flag("once"),
            delete,
        })),
        _ => Err(usage(String::from_str(
            alloc,
            "error: watch needs --to REMOTE, and one folder\n",
        ))),
    }
}
