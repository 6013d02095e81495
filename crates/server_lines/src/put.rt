//! Lines that send a file.
ghost use Rattle.std.specs.Prelude.{◌≡◌, IfOk};
ghost use Rattle.server_lines.specs.Commands.{put_of, put_command, send_of, send_command};

use crate::command::{Command, PutCommand, SendCommand};
use crate::sending::{Sending, Waiting, sending_of, waiting_of};
use entity_config::Config;
use line_words::{Words, lane_of, user_of};
use std::alloc::{AllocError, Global};

/// Parses a Put from the words after the first one.
pub(crate) fn put(
    alloc: Global,
    config: &Config,
    operands: Words<'_>,
) -> Result<Option<Command>, AllocError>
    ensures { IfOk result (λ command. command ≡ put_of config.now operands.entry) }
{
    let Some((user, operands)) = operands.next() else {
        return Ok(None);
    };
    let Some((lane, operands)) = operands.next() else {
        return Ok(None);
    };
    let Some(user) = user_of(config, user) else {
        return Ok(None);
    };
    let Some(lane) = lane_of(config, lane) else {
        return Ok(None);
    };
    let sending = sending_of(alloc, operands)?;
    Ok(sending.map(|sending| put_command(user, lane, sending)))
}

fn put_command(user: usize, lane: usize, sending: Sending) -> Command
    ensures { result ≡ put_command user lane sending }
{
    Command::Put(PutCommand {
        user,
        lane,
        class: sending.class,
        closure: sending.closure,
        destination: sending.destination,
        source: sending.source,
        destination_name: sending.destination_name,
    })
}

/// Parses a file for the outbox from the words after the first one.
pub(crate) fn send(
    alloc: Global,
    config: &Config,
    operands: Words<'_>,
) -> Result<Option<Command>, AllocError>
    ensures { IfOk result (λ command. command ≡ send_of config.now operands.entry) }
{
    let Some((user, operands)) = operands.next() else {
        return Ok(None);
    };
    let Some(user) = user_of(config, user) else {
        return Ok(None);
    };
    let waiting = waiting_of(alloc, operands)?;
    Ok(waiting.map(|waiting| send_command(user, waiting)))
}

fn send_command(user: usize, waiting: Waiting) -> Command
    ensures { result ≡ send_command user waiting }
{
    let Waiting {
        sending,
        is_urgent,
        source_name,
    } = waiting;
    Command::Send(SendCommand {
        user,
        class: sending.class,
        closure: sending.closure,
        destination: sending.destination,
        source: sending.source,
        destination_name: sending.destination_name,
        is_urgent,
        source_name,
    })
}
