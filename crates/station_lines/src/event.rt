//! The values that the lines of events show.

use crate::moment::Moment;
use cfdp_types::{Class, EntityId, TxnKey};
use indications::Indication;

/// When an event happened, and its number: 1 for the server's first.
#[derive(Clone, Copy, Debug)]
pub struct EventHead {
    pub at: Moment,
    pub number: u64,
}

/// An indication to a user.
#[derive(Clone, Copy, Debug)]
pub struct IndicationEvent<'a> {
    /// The user's name.
    pub user: &'a str,
    pub key: TxnKey,
    pub indication: &'a Indication,
}

/// A Put that opened a transaction.
#[derive(Clone, Copy, Debug)]
pub struct PutEvent<'a> {
    /// The user's name.
    pub user: &'a str,
    pub key: TxnKey,
    /// The remote entity that is to receive the file.
    pub peer: EntityId,
    pub class: Class,
    /// The path of the file here.
    pub file: &'a [u8],
    /// The destination file name.
    pub to: &'a [u8],
    /// The file's size in octets.
    pub size: u64,
    /// The file's number in the outbox, if it waited there.
    pub queued: Option<u64>,
}

/// A file of the outbox that was given up.
#[derive(Clone, Copy, Debug)]
pub struct UnsentEvent<'a> {
    /// The file's number in the outbox.
    pub queued: u64,
    /// The name of the file's user.
    pub user: &'a str,
    /// The remote entity that was to receive the file.
    pub destination: EntityId,
    /// The path of the file here.
    pub file: &'a [u8],
    /// Why it was given up.
    pub why: &'a str,
    /// Why its file can't be read, if that is said.
    pub reason: Option<&'a str>,
}

/// A command that changes something, and what came of it.
#[derive(Clone, Copy, Debug)]
pub struct CommandEvent<'a> {
    /// Its words, as it was understood.
    pub words: &'a str,
    /// The first line of its reply, without the line feed.
    pub answer: &'a str,
    /// The seat of the client that gave it; `None` if it came over standard input.
    pub seat: Option<u64>,
    /// Why its file can't be read, if that is said.
    pub reason: Option<&'a str>,
}

/// Transaction numbers that were used up without a file, because a user's numbers lagged behind those used toward a
/// remote entity.
#[derive(Clone, Copy, Debug)]
pub struct SkippedEvent<'a> {
    /// The user's name.
    pub user: &'a str,
    /// The remote entity.
    pub destination: EntityId,
    /// How many numbers were used up.
    pub count: u64,
    /// The next number of their lane.
    pub next: u64,
}
