ghost use Rattle.std.specs.Prelude.{◌≡◌, IfOk};
ghost use Rattle.server_lines.specs.Commands.{command_of, command_of_words};

use crate::other::other;
use crate::put::{put, send};
use cfdp_types::{Class, EntityId, Octets, TxnKey};
use entity_config::Config;
use entity_routing::Request;
use event_levels::Level;
use line_words::{Words, has_quote, is_ascii, quoted_words};
use std::alloc::{AllocError, Global};

/// A file to be sent from one of a user's lanes.
#[derive(Debug, Drop)]
pub struct PutCommand {
    pub user: usize,
    pub lane: usize,
    pub class: Class,
    /// Whether the receiver is asked to report at the end what became of the file; it matters in class 1 only.
    pub closure: bool,
    pub destination: EntityId,
    /// The path of the file here, and its source file name: 1 to 255 octets, beyond ASCII only if it was quoted.
    pub source: Octets,
    /// Its destination file name, of 1 to 255 octets likewise.
    pub destination_name: Octets,
}

/// A file to be sent once one of its user's lanes is idle.
#[derive(Debug, Drop)]
pub struct SendCommand {
    pub user: usize,
    pub class: Class,
    /// Whether the receiver is asked to report at the end what became of the file; it matters in class 1 only.
    pub closure: bool,
    pub destination: EntityId,
    /// The path of the file here: 1 to 255 octets, beyond ASCII only if it was quoted. It is the source file name too,
    /// if none is given.
    pub source: Octets,
    /// Its destination file name, of 1 to 255 octets likewise.
    pub destination_name: Octets,
    /// Whether it goes before its user's files that aren't urgent.
    pub is_urgent: bool,
    /// Its source file name, of 1 to 255 octets likewise, if it is another than the path.
    pub source_name: Option<Octets>,
}

/// What changes the server while it runs, or watches a part of it.
#[derive(Clone, Copy, Debug, PartialEq, Eq)]
pub enum Tuning {
    /// At most so many octets a second of files leave for this remote entity, or together for all that have no limit of
    /// their own; `None` lifts the limit.
    Rate(Option<EntityId>, Option<u64>),
    /// Hold the links to all remote entities.
    HoldAll,
    /// Open the links to all remote entities again.
    ReleaseAll,
    /// Open the link to this entity for so many seconds, 1 to 86,400; then hold it again.
    ReleaseFor(EntityId, u64),
    /// Send the client the last kept events of this level and above, at most this many, and then all later ones of
    /// these.
    FollowFrom(u64, Level),
    /// Open the log anew.
    Reopen,
}

/// What a line of commands asks for.
#[derive(Debug, Drop)]
pub enum Command {
    /// Send a file now.
    Put(PutCommand),
    /// Put a file in the outbox.
    Send(SendCommand),
    /// A user's request about a transaction.
    Ask(usize, Request),
    /// A user takes the bundle at the front of its queue.
    Take(usize),
    /// Report how far a transaction is.
    Trace(TxnKey),
    /// Print a transaction as a script.
    Journal(TxnKey),
    /// Report the server's status.
    Status,
    /// Send the client the last kept events, at most this many, and then all later ones.
    Follow(u64),
    /// List the files in the outbox.
    Outbox,
    /// Take the file with this number out of the outbox.
    Drop(u64),
    /// Hold the link to this entity: nothing is sent to it, and its timers rest.
    Hold(EntityId),
    /// Open the link to this entity again.
    Release(EntityId),
    /// Change the server, or watch a part of it.
    Tune(Tuning),
    /// End the server.
    Quit,
}

/// Parses a line of commands, by the users and lanes of a configuration; `None` if it isn't a command. Parsing a line
/// without double quotes allocates only a file's names; parsing one with quotes allocates each of its words.
pub fn command_of(
    alloc: Global,
    config: &Config,
    line: &[u8],
) -> Result<Option<Command>, AllocError>
    ensures { IfOk result (λ command. command ≡ command_of config.now line.now) }
{
    if has_quote(line) {
        return match quoted_words(alloc, line)? {
            None => Ok(None),
            Some(words) => command_of_words(alloc, config, Words::of_list(words.as_slice())),
        };
    }
    if is_ascii(line) {
        command_of_words(alloc, config, Words::of_line(line))
    } else {
        Ok(None)
    }
}

fn command_of_words(
    alloc: Global,
    config: &Config,
    words: Words<'_>,
) -> Result<Option<Command>, AllocError>
    ensures { IfOk result (λ command. command ≡ command_of_words config.now words.entry) }
{
    let Some((kind, operands)) = words.next() else {
        return Ok(None);
    };
    if kind == b"put".as_slice() {
        put(alloc, config, operands)
    } else if kind == b"send".as_slice() {
        send(alloc, config, operands)
    } else {
        Ok(other(config, kind, operands))
    }
}
