//! Brings what an outbox's file says back into memory.
ghost use Rattle.std.specs.Prelude.{◌≡◌, ◌⊎◌, Err, None, OnErr, OnOk};
ghost use Rattle.server_lines.specs.Commands.{command_of};
ghost use Rattle.held_outbox.specs.Held.{Restores, file_of, sent_in};
ghost use Rattle.program_outbox.specs.Outgoings.{queued_as_at};

use crate::held::HeldFault;
use entity_config::Config;
use outbox_file::Entry;
use program_outbox::{OutboxFault, OutboxFile, Outgoing};
use server_lines::{Command, SendCommand, command_of};
use std::alloc::{AllocError, Global};

/// The file that a command puts in the outbox at a moment.
pub fn file_of(send: SendCommand, since: u64) -> OutboxFile
    ensures { result ≡ file_of since send }
{
    OutboxFile {
        class: send.class,
        destination: send.destination,
        source: send.source,
        source_name: send.source_name,
        destination_name: send.destination_name,
        closure: send.closure,
        is_urgent: send.is_urgent,
        since,
    }
}

/// Puts a file in the outbox that an earlier run left in its file, with its number, its moment, and what its words say
/// by the configuration.
pub fn restore_one(
    alloc: Global,
    config: &Config,
    entry: &Entry,
    outgoing: &mut Outgoing,
    now: u64,
) -> Result<(), HeldFault>
    ensures restored { OnOk result (Restores config.now entry.now now outgoing.old outgoing.new) }
    ensures none { sent_in (command_of config.now entry.now.words) ≡ None
        → (result ≡ Err HeldFault.NoFile) ⊎ (result ≡ Err HeldFault.NoMemory) }
    ensures same { OnErr result (outgoing.new ≡ outgoing.old) }
{
    let sent = match command_of(alloc, config, entry.words.as_slice()) {
        Ok(command) => sent_in(command),
        Err(AllocError) => return Err(HeldFault::NoMemory),
    };
    match sent {
        Some(send) => {
            let user = send.user;
            push_back(
                outgoing,
                entry.number,
                user,
                file_of(send, entry.since),
                now,
            )
        }
        None => Err(HeldFault::NoFile),
    }
}

// The file that a command puts in the outbox, if it does that.
fn sent_in(command: Option<Command>) -> Option<SendCommand>
    ensures { result ≡ sent_in command }
{
    match command {
        Some(Command::Send(send)) => Some(send),
        _ => None,
    }
}

// Puts a file in the outbox, with its number.
fn push_back(
    outgoing: &mut Outgoing,
    number: u64,
    user: usize,
    file: OutboxFile,
    now: u64,
) -> Result<(), HeldFault>
    ensures after { OnOk result (outgoing.new ≡ queued_as_at number user file now outgoing.old) }
    ensures same { OnErr result (outgoing.new ≡ outgoing.old) }
{
    match outgoing.push_as(number, user, file, now) {
        Ok(()) => Ok(()),
        Err(OutboxFault::Full) => Err(HeldFault::Full),
        Err(OutboxFault::NoMemory) => Err(HeldFault::NoMemory),
    }
}
