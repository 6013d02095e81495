//! A line of commands, parsed.
ghost use Rattle.program_desk.specs.Says.{IsSaidBy};

use crate::desk::Desk;
use cfdp_types::Octets;
use entity_config::Config;
use program_start::{FileReader, ProgramFault};
use server_lines::{Command, PutCommand, SendCommand, command_of, line_fault};
use std::alloc::{AllocError, Global};
use std::sync::Wait;
use std::time::Clock;

/// A line of commands, parsed, with the file of a Put, or the size of one that is looked at before it waits.
#[derive(Drop)]
pub enum Said {
    /// A command other than a Put.
    Command(Command),
    /// A Put, with its file, or the fault if that can't be read.
    Put(PutCommand, Result<Octets, ProgramFault>),
    /// A file for the outbox that was looked at: its size, or the fault if it can't be read.
    Send(SendCommand, Result<u64, ProgramFault>),
    /// The line is not a command: why, in words, as far as that was looked for.
    Bad(Vec<u8>),
    /// Memory for the line ran out.
    NoMemory,
}

// Whether the file of a send is looked at before it waits: if the line has the word `urgent` or `as`.
fn is_looked_at(send: &SendCommand) -> bool {
    send.is_urgent || send.source_name.is_some()
}

/// Parses a line by a configuration, and reads the file of a Put, or looks at the file of a send with the word `urgent`
/// or `as`. Meanwhile the desk lists this file as being read.
pub fn said_by<R: Wait + Clock, F: FileReader>(
    rt: &R,
    alloc: Global,
    files: &F,
    config: &Config,
    line: &[u8],
    desk: &Desk,
) -> Said
    ensures { IsSaidBy config.now line.now result }
{
    match command_of(alloc, config, line) {
        Ok(Some(Command::Put(put))) => {
            let file = desk.read_file(rt, alloc, files, &put.source);
            Said::Put(put, file)
        }
        Ok(Some(Command::Send(send))) => {
            if is_looked_at(&send) {
                let size = desk.look_at_file(rt, files, &send.source);
                Said::Send(send, size)
            } else {
                Said::Command(Command::Send(send))
            }
        }
        Ok(Some(command)) => Said::Command(command),
        Ok(None) => match line_fault(alloc, config, line) {
            Ok(why) => Said::Bad(why),
            Err(AllocError) => Said::NoMemory,
        },
        Err(AllocError) => Said::NoMemory,
    }
}
