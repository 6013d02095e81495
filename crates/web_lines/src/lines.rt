//! Lines of a status, each with its kind.
ghost use Rattle.std.specs.Prelude.{◌≡◌, ◌==◌, ◌++◌, IfOk, OnOk, map};
ghost use Rattle.std.specs.List.{slice_split};
ghost use Rattle.web_lines.specs.Document.{AreLinesOf, kind_of_text, said, with_kind};

use crate::kind::Kind;
use json::{Error, Scratch, Value};
use std::alloc::{AllocError, Global};

/// A line that is whole JSON of a known kind.
#[derive(Clone, Copy, Debug)]
pub(crate) struct Line<'a> {
    pub(crate) kind: Kind,
    pub(crate) text: &'a str,
}

/// The lines of a text, in order. A line that isn't a JSON object of a known kind is left out.
pub(crate) fn read_lines<'a>(alloc: Global, text: &'a str) -> Result<Vec<Line<'a>>, AllocError>
    ensures { IfOk result (λ lines. AreLinesOf text.now lines.items) }
{
    let mut scratch = Scratch::new(alloc);
    let mut lines = Vec::new(alloc);
    let pieces = pieces_of(alloc, text)?;
    for piece in pieces.as_slice() {
        let kind = kind_of(alloc, *piece, &mut scratch)?;
        push_line(&mut lines, kind, *piece)?;
    }
    Ok(lines)
}

// The text, cut at its line feeds.
fn pieces_of<'a>(alloc: Global, text: &'a str) -> Result<Vec<&'a str>, AllocError>
    ensures { IfOk result (λ pieces. map (λ piece. piece.now) pieces.items ≡ slice_split (λ octet. octet == 10) text.now) }
{
    text.split('\n').collect(alloc)
}

// Adds a line, if it has a kind.
fn push_line<'a>(
    lines: &mut Vec<Line<'a>>,
    kind: Option<Kind>,
    text: &'a str,
) -> Result<(), AllocError>
    ensures { OnOk result (map said lines.new.items ≡ map said lines.old.items ++ with_kind kind text.now) }
{
    if let Some(kind) = kind {
        lines.push(Line { kind, text })?;
    }
    Ok(())
}

// The kind of a line that is whole JSON.
fn kind_of(alloc: Global, line: &str, scratch: &mut Scratch) -> Result<Option<Kind>, AllocError>
    ensures { IfOk result (λ kind. kind ≡ kind_of_text line.now) }
{
    scratch.reserve(line.len())?;
    match Value::parse(alloc, line, scratch) {
        Ok(value) => Ok(Kind::of(&value)),
        Err(Error::Invalid) => Ok(None),
        Err(_) => Err(AllocError),
    }
}
