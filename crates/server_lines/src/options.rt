//! What follows the operands of a send: closure, a turn before others, another source name.
ghost use Rattle.std.specs.Prelude.{◌≡◌, IfOk};
ghost use Rattle.server_lines.specs.Commands.{after_closure, after_urgent, name_from, options, options_of, urgent_from};

use crate::operands::file_name_of;
use cfdp_types::Octets;
use line_words::Words;
use std::alloc::{AllocError, Global};

// What a send asks for besides its file.
#[derive(Drop)]
pub(crate) struct SendOptions {
    pub(crate) closure: bool,
    pub(crate) is_urgent: bool,
    pub(crate) source_name: Option<Octets>,
}

/// Parses the words after a send's operands: `closure`, `urgent`, and `as` with a name, each or none, in this order.
pub(crate) fn options_of(alloc: Global, rest: Words<'_>) -> Result<Option<SendOptions>, AllocError>
    ensures { IfOk result (λ o. o ≡ options_of rest.entry) }
{
    let Some((word, rest)) = rest.next() else {
        return Ok(Some(options(false, false)));
    };
    if word == b"closure".as_slice() {
        after_closure(alloc, rest)
    } else {
        urgent_from(alloc, false, word, rest)
    }
}

// Options without another name.
fn options(closure: bool, is_urgent: bool) -> SendOptions
    ensures { result ≡ options closure is_urgent }
{
    SendOptions {
        closure,
        is_urgent,
        source_name: None,
    }
}

fn after_closure(alloc: Global, rest: Words<'_>) -> Result<Option<SendOptions>, AllocError>
    ensures { IfOk result (λ o. o ≡ after_closure rest.entry) }
{
    match rest.next() {
        None => Ok(Some(options(true, false))),
        Some((word, rest)) => urgent_from(alloc, true, word, rest),
    }
}

fn urgent_from(
    alloc: Global,
    closure: bool,
    word: &[u8],
    rest: Words<'_>,
) -> Result<Option<SendOptions>, AllocError>
    ensures { IfOk result (λ o. o ≡ urgent_from closure word.now rest.entry) }
{
    if word == b"urgent".as_slice() {
        after_urgent(alloc, closure, rest)
    } else {
        name_from(alloc, closure, false, word, rest)
    }
}

fn after_urgent(
    alloc: Global,
    closure: bool,
    rest: Words<'_>,
) -> Result<Option<SendOptions>, AllocError>
    ensures { IfOk result (λ o. o ≡ after_urgent closure rest.entry) }
{
    match rest.next() {
        None => Ok(Some(options(closure, true))),
        Some((word, rest)) => name_from(alloc, closure, true, word, rest),
    }
}

fn name_from(
    alloc: Global,
    closure: bool,
    is_urgent: bool,
    word: &[u8],
    rest: Words<'_>,
) -> Result<Option<SendOptions>, AllocError>
    ensures { IfOk result (λ o. o ≡ name_from closure is_urgent word.now rest.entry) }
{
    if word != b"as".as_slice() {
        return Ok(None);
    }
    let Some(name) = rest.last() else {
        return Ok(None);
    };
    let Some(name) = file_name_of(name) else {
        return Ok(None);
    };
    Ok(Some(SendOptions {
        closure,
        is_urgent,
        source_name: Some(Octets::from_slice(alloc, name)?),
    }))
}
