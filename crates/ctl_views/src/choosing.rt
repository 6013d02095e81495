//! Chooses lines of a status, and transactions in it.
ghost use Rattle.std.specs.Prelude.{◌≡◌};
ghost use Rattle.ctl_views.specs.Choices.{is_failed, is_of_remote, is_server, is_shown};

use crate::ends::{End, end_in};
use crate::events::{Transaction, transaction_in};
use crate::fields::{number_in, text_in, value_of};
use crate::sums::is_lost;
use json::{Scratch, Value};
use station_names::{kind, member, word};
use std::alloc::{AllocError, Global};

/// What a line of a status is about.
#[derive(Clone, Copy)]
pub enum Topic {
    /// The entity itself.
    Server,
    /// A transaction that ended in this way.
    Ended(End),
    /// A transaction under way.
    Going,
    /// Anything else.
    Other,
}

/// The lines of a status that are shown. With `remote`, those about other entities are left out. With `only_failed`,
/// only the entity's and those of transactions that failed are shown. A line that isn't JSON is shown if everything is.
pub fn shown_lines(
    alloc: Global,
    lines: &str,
    remote: Option<u64>,
    only_failed: bool,
) -> Result<String, AllocError> {
    let mut shown = String::new(alloc);
    let mut scratch = Scratch::new(alloc);
    for line in lines.split('\n') {
        if !line.is_empty() && is_shown_line(alloc, line, &mut scratch, remote, only_failed)? {
            shown.push_str(line)?;
            shown.push('\n')?;
        }
    }
    Ok(shown)
}

fn is_shown_line(
    alloc: Global,
    line: &str,
    scratch: &mut Scratch,
    remote: Option<u64>,
    only_failed: bool,
) -> Result<bool, AllocError> {
    match value_of(alloc, line, scratch)? {
        Some(value) => Ok(is_shown(remote, only_failed, topic_of(&value), peer_of(&value))),
        None => Ok(remote.is_none() && !only_failed),
    }
}

fn topic_of(value: &Value<'_>) -> Topic {
    match (text_in(value, member::KIND), text_in(value, member::STATE)) {
        (Some(kind::ENTITY), _) => Topic::Server,
        (Some(kind::TRANSACTION), Some(word::ENDED)) => topic_of_end(end_in(value)),
        (Some(kind::TRANSACTION), _) => Topic::Going,
        _ => Topic::Other,
    }
}

// What the line of a transaction that has ended is about, by its end if that is reported.
fn topic_of_end(end: Option<End>) -> Topic {
    match end {
        Some(end) => Topic::Ended(end),
        None => Topic::Other,
    }
}

// The entity that a line is about.
fn peer_of(value: &Value<'_>) -> Option<u64> {
    match text_in(value, member::KIND) {
        Some(kind::TRANSACTION) => number_in(value, member::PEER),
        Some(kind::QUEUED) => number_in(value, member::DESTINATION),
        Some(kind::REMOTE) => number_in(value, member::ID),
        Some(kind::NOTE) => number_in(value, member::REMOTE),
        _ => None,
    }
}

/// Whether a line is shown, by what it is about and the entity that it is about, if there is one.
pub fn is_shown(remote: Option<u64>, only_failed: bool, topic: Topic, peer: Option<u64>) -> bool
    ensures { result ≡ is_shown remote only_failed topic peer }
{
    is_server(topic) || (is_of_remote(remote, peer) && (!only_failed || is_failed(topic)))
}

fn is_server(topic: Topic) -> bool
    ensures { result ≡ is_server topic }
{
    match topic {
        Topic::Server => true,
        Topic::Ended(_) | Topic::Going | Topic::Other => false,
    }
}

fn is_failed(topic: Topic) -> bool
    ensures { result ≡ is_failed topic }
{
    match topic {
        Topic::Ended(end) => is_lost(end),
        Topic::Server | Topic::Going | Topic::Other => false,
    }
}

fn is_of_remote(remote: Option<u64>, peer: Option<u64>) -> bool
    ensures { result ≡ is_of_remote remote peer }
{
    match (remote, peer) {
        (None, _) => true,
        (Some(_), None) => true,
        (Some(remote), Some(peer)) => remote == peer,
    }
}

/// A transaction under way.
#[derive(Drop)]
pub struct Live {
    pub user: String,
    pub source: u64,
    pub seq: u64,
    /// The entity at the other end.
    pub peer: Option<u64>,
}

/// The transaction under way that a line of a status reports; `None` for any other line.
pub fn read_live(alloc: Global, line: &str) -> Result<Option<Live>, AllocError> {
    let mut scratch = Scratch::new(alloc);
    match value_of(alloc, line, &mut scratch)? {
        Some(value) => live_in(alloc, &value),
        None => Ok(None),
    }
}

fn live_in(alloc: Global, value: &Value<'_>) -> Result<Option<Live>, AllocError> {
    if !matches!(topic_of(value), Topic::Going) {
        return Ok(None);
    }
    let (Some(user), Some(Transaction { source, seq })) = (
        text_in(value, member::USER),
        transaction_in(value),
    ) else {
        return Ok(None);
    };
    Ok(Some(Live {
        user: String::from_str(alloc, user)?,
        source,
        seq,
        peer: number_in(value, member::PEER),
    }))
}
