//! The users and the remote entities of the server, against which a command line is checked.
use crate::asking::Line;
use crate::fault::CtlFault;
use crate::screen::Screen;
use ctl_views::{StatusLine, read_status_line};
use std::alloc::{AllocError, Global};
use std::io::Write;
use std::sync::Wait;
use std::time::Clock;

/// What the server says about itself: nothing if it doesn't know `status`.
#[derive(Drop)]
pub(crate) struct Known {
    users: Vec<String>,
    remotes: Vec<u64>,
}

impl Known {
    /// Whether the server has a remote entity. One that says nothing about itself is taken to have it.
    pub(crate) fn has_remote(&self, remote: u64) -> bool {
        has_remote(self.remotes.as_slice(), remote)
    }
}

/// Asks the server for its users and remote entities.
pub(crate) fn ask_for_known<R: Clock + Wait>(
    rt: &R,
    alloc: Global,
    line: &mut Line,
) -> Result<Known, CtlFault> {
    let answer = line.ask(rt, b"status")?;
    Ok(known_in(alloc, answer.as_slice())?)
}

// The users and the remote entities in a status.
fn known_in(alloc: Global, answer: &[u8]) -> Result<Known, AllocError> {
    let lines = String::from_utf8_lossy(alloc, answer)?;
    let mut users = Vec::new(alloc);
    let mut remotes = Vec::new(alloc);
    for line in lines.as_str().split('\n') {
        let is_added = match read_status_line(alloc, line)? {
            StatusLine::User(name) => users.push(name).is_ok(),
            StatusLine::Remote(id) => remotes.push(id).is_ok(),
            StatusLine::Sending(_) | StatusLine::Other => true,
        };
        if !is_added {
            return Err(AllocError);
        }
    }
    Ok(Known { users, remotes })
}

/// The user whose files are sent: the one that the command line names, or the server's only one. If it has several, or
/// not this one, or not the entity that receives the files, prints what it has and returns `None`.
pub(crate) fn user_for<W: Write + Drop, E: Write + Drop>(
    alloc: Global,
    screen: &mut Screen<W, E>,
    remote: u64,
    user: Option<&str>,
    known: Known,
) -> Result<Option<String>, CtlFault> {
    let Known { mut users, remotes } = known;
    if !has_remote(remotes.as_slice(), remote) {
        let mut text = format!(in alloc;
            "cfdp_ctl: --to {remote}: the server has no such entity; its entities are:"
        )?;
        for one in remotes.as_slice() {
            write!(text, " {one}")?;
        }
        screen.complain_line(alloc, text.as_str());
        return Ok(None);
    }
    let mut text = String::new(alloc);
    match user {
        None if users.len() == 1 => return Ok(users.pop()),
        None => text.push_str("cfdp_ctl: --user is missing, and the server's users are:")?,
        Some(name) if has_user(users.as_slice(), name) => {
            return Ok(Some(String::from_str(alloc, name)?));
        }
        Some(name) => write!(
            text,
            "cfdp_ctl: --user {name}: the server has no such user; its users are:"
        )?,
    }
    for name in users.as_slice() {
        text.push(' ')?;
        text.push_str(name.as_str())?;
    }
    screen.complain_line(alloc, text.as_str());
    Ok(None)
}

// Whether a remote entity is among these. A server that reports none is taken to have it.
fn has_remote(remotes: &[u64], remote: u64) -> bool {
    remotes.is_empty() || remotes.iter().any(|one| *one == remote)
}

// Whether a user is among these. A server that reports none is taken to have it.
fn has_user(users: &[String], name: &str) -> bool {
    users.is_empty() || users.iter().any(|one| one.as_str() == name)
}
