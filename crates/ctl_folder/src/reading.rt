//! The file that a server reads, found in its status.
use json::{Error, Scratch, Value};
use station_names::{kind, member};
use std::alloc::{AllocError, Global};

/// The path of the file that a line of a status reports as being read; `None` for any other line, and for a path that isn't
/// UTF-8.
pub fn path_being_read(alloc: Global, line: &str) -> Result<Option<String>, AllocError> {
    let mut scratch = Scratch::new(alloc);
    scratch.reserve(line.len())?;
    match Value::parse(alloc, line, &mut scratch) {
        Ok(value) => path_in(alloc, &value),
        Err(Error::OutOfMemory) => Err(AllocError),
        Err(_) => Ok(None),
    }
}

fn path_in(alloc: Global, value: &Value<'_>) -> Result<Option<String>, AllocError> {
    match (text_in(value, member::KIND), text_in(value, member::FILE)) {
        (Some(kind::READING), Some(path)) => Ok(Some(String::from_str(alloc, path)?)),
        _ => Ok(None),
    }
}

fn text_in<'a>(value: &Value<'a>, name: &str) -> Option<&'a str> {
    value.get(name)?.as_str()
}
