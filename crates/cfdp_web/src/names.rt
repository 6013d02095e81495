//! The names by which browsers reach the console.
use crate::words::Words;
use std::alloc::{AllocError, Global};
use web_pages::Names;

/// The address where the console listens, and the name from the command line, or else `localhost` with the port.
pub(crate) fn names_of(alloc: Global, words: &Words<'_>) -> Result<Names, AllocError> {
    let first = Vec::from_slice(alloc, words.listen.as_bytes())?;
    let second = match words.name {
        Some(name) => Vec::from_slice(alloc, name.as_bytes())?,
        None => local_name(alloc, words.listen.as_bytes())?,
    };
    Ok(Names { first, second })
}

// `localhost` with the port of an address.
fn local_name(alloc: Global, address: &[u8]) -> Result<Vec<u8>, AllocError> {
    let mut name = Vec::from_slice(alloc, b"localhost".as_slice())?;
    if let Some(at) = address.iter().rposition(|octet| *octet == b':')
        && let Some(port) = address.get(at..)
    {
        name.extend_from_slice(port)?;
    }
    Ok(name)
}
