//! The operands of a file to be sent.
ghost use Rattle.std.specs.Prelude.{◌≡◌, IfOk};
ghost use Rattle.server_lines.specs.Commands.{sending_from, sending_of, waiting_of, with_options};

use crate::operands::{closure_of, file_name_of};
use crate::options::{SendOptions, options_of};
use cfdp_types::{Class, EntityId, Octets};
use line_words::{Words, class_of, number_of};
use std::alloc::{AllocError, Global};

// A file to be sent, without its user.
#[derive(Drop)]
pub(crate) struct Sending {
    pub(crate) class: Class,
    pub(crate) closure: bool,
    pub(crate) destination: EntityId,
    pub(crate) source: Octets,
    pub(crate) destination_name: Octets,
}

// A file that waits for a lane, without its user.
#[derive(Drop)]
pub(crate) struct Waiting {
    pub(crate) sending: Sending,
    pub(crate) is_urgent: bool,
    pub(crate) source_name: Option<Octets>,
}

/// Parses class, destination, both names, and whether closure is asked for.
pub(crate) fn sending_of(alloc: Global, operands: Words<'_>) -> Result<Option<Sending>, AllocError>
    ensures { IfOk result (λ sending. sending ≡ sending_of operands.entry) }
{
    let Some((class, operands)) = operands.next() else {
        return Ok(None);
    };
    let Some((destination, operands)) = operands.next() else {
        return Ok(None);
    };
    let Some((source, operands)) = operands.next() else {
        return Ok(None);
    };
    let Some((destination_name, operands)) = operands.next() else {
        return Ok(None);
    };
    let Some(closure) = closure_of(operands) else {
        return Ok(None);
    };
    sending_from(alloc, class, destination, source, destination_name, closure)
}

/// Parses class, destination, both names, and what else is asked for.
pub(crate) fn waiting_of(alloc: Global, operands: Words<'_>) -> Result<Option<Waiting>, AllocError>
    ensures { IfOk result (λ waiting. waiting ≡ waiting_of operands.entry) }
{
    let Some((class, operands)) = operands.next() else {
        return Ok(None);
    };
    let Some((destination, operands)) = operands.next() else {
        return Ok(None);
    };
    let Some((source, operands)) = operands.next() else {
        return Ok(None);
    };
    let Some((destination_name, operands)) = operands.next() else {
        return Ok(None);
    };
    let Some(options) = options_of(alloc, operands)? else {
        return Ok(None);
    };
    let closure = options.closure;
    let sending = sending_from(alloc, class, destination, source, destination_name, closure)?;
    Ok(with_options(sending, options))
}

fn with_options(sending: Option<Sending>, options: SendOptions) -> Option<Waiting>
    ensures { result ≡ with_options options sending }
{
    let sending = sending?;
    Some(Waiting {
        sending,
        is_urgent: options.is_urgent,
        source_name: options.source_name,
    })
}

fn sending_from(
    alloc: Global,
    class: &[u8],
    destination: &[u8],
    source: &[u8],
    destination_name: &[u8],
    closure: bool,
) -> Result<Option<Sending>, AllocError>
    ensures { IfOk result
        (λ sending. sending ≡ sending_from class.now destination.now source.now destination_name.now closure) }
{
    let Some(class) = class_of(class) else {
        return Ok(None);
    };
    let Some(destination) = number_of(destination) else {
        return Ok(None);
    };
    let Some(source) = file_name_of(source) else {
        return Ok(None);
    };
    let Some(destination_name) = file_name_of(destination_name) else {
        return Ok(None);
    };
    Ok(Some(Sending {
        class,
        closure,
        destination: EntityId(destination),
        source: Octets::from_slice(alloc, source)?,
        destination_name: Octets::from_slice(alloc, destination_name)?,
    }))
}
