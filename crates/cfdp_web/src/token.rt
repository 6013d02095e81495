//! The token that a browser has to send with a command.
use crate::words::Words;
use std::alloc::{AllocError, Global};
use std::fs::File;
use std::io;
use std::io::{ErrorKind, Read};
use std::random::RandomSource;
use std::rt::Files;

// How many random octets a token has.
const RANDOM_OCTETS: usize = 16;

// The most octets of a token.
const TOKEN_OCTETS: usize = 4096;

// How many octets of the token's file are read: enough for the longest token and the end of its line.
const FILE_OCTETS: u64 = 4098;

// The digits of a token.
const DIGITS: [u8; 16] = *b"0123456789abcdef";

/// The token: `None` if no commands are taken, the first line of its file if one is given, and else a new one.
pub(crate) fn token_for<R: Files + RandomSource + AllocGlobal>(
    rt: &R,
    words: &Words<'_>,
) -> io::Result<Option<Vec<u8>>> {
    if !words.commands {
        return Ok(None);
    }
    match words.token_file {
        Some(path) => Ok(Some(read_token(rt, rt.alloc(), path)?)),
        None => Ok(Some(new_token(rt, rt.alloc())?)),
    }
}

// The first line of a file. An empty or too long line is not a token.
fn read_token<R: Files>(rt: &R, alloc: Global, path: &str) -> io::Result<Vec<u8>> {
    let mut text = Vec::new(alloc);
    File::open(rt, path)?
        .take(FILE_OCTETS)
        .read_to_end(&mut text)?;
    let line = first_line(text.as_slice());
    if line.is_empty() || line.len() > TOKEN_OCTETS {
        return Err(ErrorKind::InvalidData.into());
    }
    match Vec::from_slice(alloc, line) {
        Ok(token) => Ok(token),
        Err(AllocError) => Err(ErrorKind::OutOfMemory.into()),
    }
}

// The text before the first line feed, without a carriage return at its end.
fn first_line(text: &[u8]) -> &[u8] {
    let line = match text.iter().position(|octet| *octet == b'\n') {
        Some(at) => &text[..at],
        None => text,
    };
    match line.strip_suffix(b"\r".as_slice()) {
        Some(line) => line,
        None => line,
    }
}

// A token of random digits.
fn new_token<R: RandomSource>(rt: &R, alloc: Global) -> io::Result<Vec<u8>> {
    let mut random = [0u8; RANDOM_OCTETS];
    rt.fill_bytes(random.as_mut_slice())?;
    let mut token = Vec::new(alloc);
    for octet in random {
        let digits = [
            DIGITS[usize::from(octet >> 4)],
            DIGITS[usize::from(octet & 15)],
        ];
        token.extend_from_slice(digits.as_slice())?;
    }
    Ok(token)
}
