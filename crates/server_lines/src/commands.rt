//! The words of whole commands.
ghost use Rattle.std.specs.Prelude.{◌≡◌, ◌++◌, IfOk, OnOk};
ghost use Rattle.server_lines.specs.CommandWords.{aliased, closure_octets, command_words, number_octets, put_words, send_words, urgent_octets};

use crate::changes::{push_asked, push_tuning};
use crate::parts::{
    class_number, closure_word, push_aliased, push_names, push_number, push_user, urgent_word,
};
use crate::{Command, PutCommand, SendCommand};
use cfdp_types::Octets;
use entity_config::Config;
use std::alloc::{AllocError, Global};

/// The words of a command, without a line feed: printable ASCII characters only. Empty if the command changes nothing.
pub fn command_words(
    alloc: Global,
    config: &Config,
    command: &Command,
) -> Result<Vec<u8>, AllocError>
    ensures { IfOk result (λ words. words.items ≡ command_words config.now command.now) }
{
    let mut words = Vec::new(alloc);
    push_command(alloc, &mut words, config, command)?;
    Ok(words)
}

/// The words of the command that puts a file in a lane, likewise.
pub fn put_words(alloc: Global, config: &Config, put: &PutCommand) -> Result<Vec<u8>, AllocError>
    ensures { IfOk result (λ words. words.items ≡ put_words config.now put.now) }
{
    let mut words = Vec::new(alloc);
    push_put(alloc, &mut words, config, put)?;
    Ok(words)
}

/// The words of the command that puts a file in the outbox, likewise.
pub fn send_words(alloc: Global, config: &Config, send: &SendCommand) -> Result<Vec<u8>, AllocError>
    ensures { IfOk result (λ words. words.items ≡ send_words config.now send.now) }
{
    let mut words = Vec::new(alloc);
    push_send(alloc, &mut words, config, send)?;
    Ok(words)
}

// Adds the words of a command.
fn push_command(
    alloc: Global,
    words: &mut Vec<u8>,
    config: &Config,
    command: &Command,
) -> Result<(), AllocError>
    ensures { OnOk result (words.new.items ≡ words.old.items ++ command_words config.now command.now) }
{
    match command {
        Command::Put(put) => push_put(alloc, words, config, put),
        Command::Send(send) => push_send(alloc, words, config, send),
        Command::Ask(user, asked) => push_asked(alloc, words, config, *user, asked),
        Command::Drop(number) => push_about_number(alloc, words, b"drop", *number),
        Command::Hold(remote) => push_about_number(alloc, words, b"hold", remote.0),
        Command::Release(remote) => push_about_number(alloc, words, b"release", remote.0),
        Command::Tune(tuning) => push_tuning(alloc, words, tuning),
        Command::Quit => words.extend_from_slice(b"quit"),
        Command::Take(_)
        | Command::Trace(_)
        | Command::Journal(_)
        | Command::Status
        | Command::Follow(_)
        | Command::Outbox => Ok(()),
    }
}

// Adds a command with a number.
fn push_about_number(
    alloc: Global,
    words: &mut Vec<u8>,
    name: &[u8],
    number: u64,
) -> Result<(), AllocError>
    ensures { OnOk result (words.new.items ≡ words.old.items ++ (name.now ++ number_octets number)) }
{
    words.extend_from_slice(name)?;
    push_number(alloc, words, number)
}

// Adds the command that puts a file in a lane.
fn push_put(
    alloc: Global,
    words: &mut Vec<u8>,
    config: &Config,
    put: &PutCommand,
) -> Result<(), AllocError>
    ensures { OnOk result (words.new.items ≡ words.old.items ++ put_words config.now put.now) }
{
    words.extend_from_slice(b"put ")?;
    push_user(words, config, put.user)?;
    push_number(alloc, words, put.lane as u64)?;
    push_number(alloc, words, class_number(put.class))?;
    push_number(alloc, words, put.destination.0)?;
    push_names(words, &put.source, &put.destination_name)?;
    words.extend_from_slice(closure_word(put.closure))
}

// Adds the command that puts a file in the outbox.
fn push_send(
    alloc: Global,
    words: &mut Vec<u8>,
    config: &Config,
    send: &SendCommand,
) -> Result<(), AllocError>
    ensures { OnOk result (words.new.items ≡ words.old.items ++ send_words config.now send.now) }
{
    words.extend_from_slice(b"send ")?;
    push_user(words, config, send.user)?;
    push_number(alloc, words, class_number(send.class))?;
    push_number(alloc, words, send.destination.0)?;
    push_names(words, &send.source, &send.destination_name)?;
    push_options(words, send.closure, send.is_urgent, &send.source_name)
}

// Adds what a file that waits is sent with.
fn push_options(
    words: &mut Vec<u8>,
    closure: bool,
    is_urgent: bool,
    name: &Option<Octets>,
) -> Result<(), AllocError>
    ensures { OnOk result (words.new.items ≡ words.old.items ++ (closure_octets closure ++ (urgent_octets is_urgent ++ aliased name.now))) }
{
    words.extend_from_slice(closure_word(closure))?;
    words.extend_from_slice(urgent_word(is_urgent))?;
    push_aliased(words, name)
}
