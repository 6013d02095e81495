//! Single words of a script's line, read as operands.
ghost use Rattle.std.specs.Prelude.{◌≡◌, IfOk};
ghost use Rattle.script_lines.specs.Commands.{stamp_of, octets_of, file_of, answer_of, kind_of, role_of, handler_of, checksum_of};

use crate::gathered::Gathered;
use cfdp_types::{Checksum, Handler, Octets, Role, TimerKind};
use hex::FromHexError;
use line_words::decimal;
use std::alloc::{AllocError, Global};

pub(crate) fn stamp_of(word: &[u8]) -> Option<u32>
    ensures { result ≡ stamp_of word.now }
{
    Some(decimal(word, u64::from(u32::MAX))? as u32)
}

/// The octets that a word spells in hex, one octet or more.
pub(crate) fn octets_of(alloc: Global, word: &[u8]) -> Result<Option<Octets>, AllocError>
    ensures { IfOk result (λ octets. octets ≡ octets_of word.now) }
{
    if word.is_empty() {
        return Ok(None);
    }
    match hex::decode(alloc, word) {
        Ok(octets) => Ok(Some(Octets::from_vec(octets)?)),
        Err(FromHexError::OutOfMemory) => Err(AllocError),
        Err(_) => Ok(None),
    }
}

/// The octets of a file, in hex; a dash for an empty file, an at sign for the octets that were gathered.
pub(crate) fn file_of(
    alloc: Global,
    gathered: &Gathered,
    word: &[u8],
) -> Result<Option<Octets>, AllocError>
    ensures { IfOk result (λ octets. octets ≡ file_of gathered.now word.now) }
{
    if word == b"-".as_slice() {
        Ok(Some(Octets::new()))
    } else if word == b"@".as_slice() {
        gathered.copy(alloc)
    } else {
        octets_of(alloc, word)
    }
}

pub(crate) fn answer_of(word: &[u8]) -> Option<bool>
    ensures { result ≡ answer_of word.now }
{
    if word == b"yes".as_slice() {
        Some(true)
    } else if word == b"no".as_slice() {
        Some(false)
    } else {
        None
    }
}

pub(crate) fn kind_of(word: &[u8]) -> Option<TimerKind>
    ensures { result ≡ kind_of word.now }
{
    if word == b"ack".as_slice() {
        Some(TimerKind::Ack)
    } else if word == b"nak".as_slice() {
        Some(TimerKind::Nak)
    } else if word == b"check".as_slice() {
        Some(TimerKind::Check)
    } else if word == b"inactivity".as_slice() {
        Some(TimerKind::Inactivity)
    } else {
        None
    }
}

pub(crate) fn role_of(word: &[u8]) -> Option<Role>
    ensures { result ≡ role_of word.now }
{
    if word == b"send".as_slice() {
        Some(Role::Send)
    } else if word == b"recv1".as_slice() {
        Some(Role::RecvOne)
    } else if word == b"recv2".as_slice() {
        Some(Role::RecvTwo)
    } else {
        None
    }
}

pub(crate) fn handler_of(word: &[u8]) -> Option<Handler>
    ensures { result ≡ handler_of word.now }
{
    if word == b"cancel".as_slice() {
        Some(Handler::Cancel)
    } else if word == b"suspend".as_slice() {
        Some(Handler::Suspend)
    } else if word == b"ignore".as_slice() {
        Some(Handler::Ignore)
    } else if word == b"abandon".as_slice() {
        Some(Handler::Abandon)
    } else {
        None
    }
}

pub(crate) fn checksum_of(word: &[u8]) -> Option<Checksum>
    ensures { result ≡ checksum_of word.now }
{
    if word == b"modular".as_slice() {
        Some(Checksum::Modular)
    } else if word == b"null".as_slice() {
        Some(Checksum::Null)
    } else {
        None
    }
}
