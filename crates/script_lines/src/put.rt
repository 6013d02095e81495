//! Lines that put a file.
ghost use Rattle.std.specs.Prelude.{◌≡◌, IfOk};
ghost use Rattle.std.specs.Option.{option_copied};
ghost use Rattle.script_lines.specs.Commands.{put_of, put_at, put_words, put_from, put_made};
ghost use Rattle.line_words.specs.Words.{words_left};

use crate::command::Command;
use crate::gathered::Gathered;
use crate::operands::file_of;
use cfdp_types::{Class, EntityId, Octets, PutFault, PutRequest};
use entity_config::Config;
use entity_routing::{Request, WorldEvent};
use line_words::{Rest, class_of, closure_of, lane_of, name_of, next_word, number_of, user_of};
use std::alloc::{AllocError, Global};

/// Parses a Put from the words after the first one.
pub(crate) fn put(
    alloc: Global,
    config: &Config,
    gathered: &Gathered,
    operands: Rest<'_>,
) -> Result<Option<Command>, AllocError>
    ensures { IfOk result
        (λ command. command ≡ put_of config.now gathered.now (words_left (option_copied operands.entry))) }
{
    let Some((user, operands)) = next_word(operands) else {
        return Ok(None);
    };
    let Some((lane, operands)) = next_word(operands) else {
        return Ok(None);
    };
    put_at(alloc, config, gathered, user, lane, operands)
}

fn put_at(
    alloc: Global,
    config: &Config,
    gathered: &Gathered,
    user: &[u8],
    lane: &[u8],
    operands: Rest<'_>,
) -> Result<Option<Command>, AllocError>
    ensures { IfOk result
        (λ command. command ≡ put_at config.now gathered.now user.now lane.now
        (words_left (option_copied operands.entry))) }
{
    let Some(user) = user_of(config, user) else {
        return Ok(None);
    };
    let Some(lane) = lane_of(config, lane) else {
        return Ok(None);
    };
    match put_words(alloc, gathered, operands)? {
        Some(request) => {
            let request = Request::Put(lane, request);
            Ok(Some(Command::Event(WorldEvent::Request(user, request))))
        }
        None => Ok(None),
    }
}

fn put_words(
    alloc: Global,
    gathered: &Gathered,
    operands: Rest<'_>,
) -> Result<Option<PutRequest>, AllocError>
    ensures { IfOk result (λ put. put ≡ put_words gathered.now (words_left (option_copied operands.entry))) }
{
    let Some((class, operands)) = next_word(operands) else {
        return Ok(None);
    };
    let Some((destination, operands)) = next_word(operands) else {
        return Ok(None);
    };
    let Some((source_name, operands)) = next_word(operands) else {
        return Ok(None);
    };
    let Some((destination_name, operands)) = next_word(operands) else {
        return Ok(None);
    };
    let Some((file, operands)) = next_word(operands) else {
        return Ok(None);
    };
    let Some(closure) = closure_of(operands) else {
        return Ok(None);
    };
    let words = PutWords {
        class,
        destination,
        source_name,
        destination_name,
        file,
    };
    match put_from(alloc, gathered, &words)? {
        Some(put) => Ok(Some(put.with_closure(closure))),
        None => Ok(None),
    }
}

// The words that say what is put, one for each parameter of the Put.
#[derive(Clone, Copy)]
struct PutWords<'a> {
    class: &'a [u8],
    destination: &'a [u8],
    source_name: &'a [u8],
    destination_name: &'a [u8],
    file: &'a [u8],
}

fn put_from(
    alloc: Global,
    gathered: &Gathered,
    words: &PutWords<'_>,
) -> Result<Option<PutRequest>, AllocError>
    ensures { IfOk result
        (λ put. put ≡ put_from gathered.now words.now.class.now words.now.destination.now words.now.source_name.now
        words.now.destination_name.now words.now.file.now) }
{
    let Some(class) = class_of(words.class) else {
        return Ok(None);
    };
    let Some(destination) = number_of(words.destination) else {
        return Ok(None);
    };
    let Some(source_name) = name_of(words.source_name) else {
        return Ok(None);
    };
    let Some(destination_name) = name_of(words.destination_name) else {
        return Ok(None);
    };
    match file_of(alloc, gathered, words.file)? {
        Some(file) => put_made(
            alloc,
            destination,
            class,
            source_name,
            destination_name,
            file,
        ),
        None => Ok(None),
    }
}

fn put_made(
    alloc: Global,
    destination: u64,
    class: Class,
    source_name: &[u8],
    destination_name: &[u8],
    file: Octets,
) -> Result<Option<PutRequest>, AllocError>
    ensures { IfOk result (λ put. put ≡ put_made destination class source_name.now destination_name.now file) }
{
    let to = EntityId(destination);
    match PutRequest::new(alloc, to, class, source_name, destination_name, &[], &[]) {
        Ok(request) => Ok(Some(request.with_file(file))),
        Err(PutFault::NoMemory) => Err(AllocError),
        Err(_) => Ok(None),
    }
}
