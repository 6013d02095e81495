//! The lines as one document.
ghost use Rattle.std.specs.Prelude.{◌≡◌, ◌++◌, [], OnOk, IfOk};
ghost use Rattle.web_lines.specs.Document.{IsDocument, document_text, list_text, some_list};

use crate::counted::count_lines;
use crate::kind::Kind;
use crate::lines::{Line, read_lines};
use crate::text::push_text;
use std::alloc::{AllocError, Global};

/// One document of the lines: an object with the members `entities`, `logs`, `users`, `transactions`, `remotes`,
/// `refusals`, `outbox`, `reading`, `parked`, `storing` and `recorders`, and, if there are such lines, `ended`,
/// `delivered` and `stores`. Each is the list of the lines of its kind, in order and as they came. A line that isn't a
/// JSON object of one of these kinds is left out.
pub fn to_document(alloc: Global, text: &str) -> Result<Vec<u8>, AllocError>
    ensures { IfOk result (λ document. IsDocument text.now document.items) }
{
    let lines = read_lines(alloc, text)?;
    let mut document = Vec::with_capacity(alloc, text.len().saturating_add(128))?;
    push_lists(&mut document, lines.as_slice())?;
    Ok(document)
}

// Adds the lists of the document.
#[tactic(auto, unfolding(crate::specs::Document::document_text))]
fn push_lists(document: &mut Vec<u8>, lines: &[Line<'_>]) -> Result<(), AllocError>
    requires { document.old.items ≡ [] }
    ensures { OnOk result (document.new.items ≡ document_text lines.now) }
{
    push_list(document, "{\"entities\":[", lines, Kind::Entity)?;
    push_list(document, "],\"logs\":[", lines, Kind::Log)?;
    push_list(document, "],\"users\":[", lines, Kind::User)?;
    push_list(document, "],\"transactions\":[", lines, Kind::Transaction)?;
    push_list(document, "],\"remotes\":[", lines, Kind::Remote)?;
    push_list(document, "],\"refusals\":[", lines, Kind::Refusal)?;
    push_list(document, "],\"outbox\":[", lines, Kind::Queued)?;
    push_list(document, "],\"reading\":[", lines, Kind::Reading)?;
    push_list(document, "],\"parked\":[", lines, Kind::Parked)?;
    push_list(document, "],\"storing\":[", lines, Kind::Storing)?;
    push_list(document, "],\"recorders\":[", lines, Kind::Recorder)?;
    push_some_list(document, "],\"ended\":[", lines, Kind::Ended)?;
    push_some_list(document, "],\"delivered\":[", lines, Kind::Delivered)?;
    push_some_list(document, "],\"stores\":[", lines, Kind::Store)?;
    push_text(document, "]}\n")
}

// As `push_list`, but adds nothing where there is no line of the kind.
fn push_some_list(
    document: &mut Vec<u8>,
    opening: &str,
    lines: &[Line<'_>],
    kind: Kind,
) -> Result<(), AllocError>
    ensures { OnOk result (document.new.items ≡ document.old.items ++ some_list opening.now kind lines.now) }
{
    if count_lines(lines, kind) == 0 {
        return Ok(());
    }
    push_list(document, opening, lines, kind)
}

// Adds an opening, and after it the lines of a kind with commas between them.
fn push_list(
    document: &mut Vec<u8>,
    opening: &str,
    lines: &[Line<'_>],
    kind: Kind,
) -> Result<(), AllocError>
    ensures { OnOk result (document.new.items ≡ document.old.items ++ opening.now ++ list_text kind lines.now) }
{
    push_text(document, opening)?;
    let mut comma = "";
    for line in lines {
        if line.kind.place() == kind.place() {
            push_text(document, comma)?;
            push_text(document, line.text)?;
            comma = ",";
        }
    }
    Ok(())
}
