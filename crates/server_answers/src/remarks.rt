//! What makes little sense in a configuration, in words.
ghost use Rattle.std.specs.Prelude.{◌≡◌, ◌++◌, OnOk, string_bytes};
ghost use Rattle.server_answers.specs.Notes.{notes_of};
ghost use Rattle.server_answers.specs.Remarks.{remark_text, remarks_text, table_of};

use crate::{Note, notes_of};
use cfdp_types::Role;
use entity_config::Config;
use std::alloc::{AllocError, Global};

/// Adds a line for each thing in a configuration that makes little sense, though it is allowed.
pub fn push_remarks(alloc: Global, text: &mut String, config: &Config) -> Result<(), AllocError>
    ensures { OnOk result (string_bytes text.new ≡ string_bytes text.old ++ remarks_text (notes_of config.now)) }
{
    let notes = notes_of(alloc, config)?;
    push_notes(text, notes.as_slice())
}

// Adds a line for each of them.
fn push_notes(text: &mut String, notes: &[Note]) -> Result<(), AllocError>
    ensures { OnOk result (string_bytes text.new ≡ string_bytes text.old ++ remarks_text notes.now) }
{
    for note in notes {
        text.push_str("note: ")?;
        push_remark(text, *note)?;
        text.push_str("\n")?;
    }
    Ok(())
}

// Adds what one of them means, and what to do about it.
fn push_remark(text: &mut String, note: Note) -> Result<(), AllocError>
    ensures { OnOk result (string_bytes text.new ≡ string_bytes text.old ++ remark_text note) }
{
    match note {
        Note::ShortNumbers => text.push_str(
            "`seq_octets` is 1: all lanes together have 256 numbers, for ever; better: 4",
        ),
        Note::FewLanes { files, lanes } => write!(
            text,
            "a peer with this configuration may have {files} files open at once, and `recv_lanes` is {lanes}: two of them may meet in one lane, and in class 1 one of these is lost"
        ),
        Note::NoUser { remote } => write!(
            text,
            "entity {} has no `user`: its files are refused",
            remote.0
        ),
        Note::Suspends { remote, role } => {
            let table = table_of(role);
            let id = remote.0;
            write!(
                text,
                "a handler in `{table}` of entity {id} suspends: the transaction keeps its lane until somebody resumes or cancels it"
            )
        }
        Note::SoonGivenUp {
            remote,
            milliseconds,
        } => write!(
            text,
            "entity {} is given up after {milliseconds} ms: `ack_ms` times `ack_limit` should be longer than a silence of the link",
            remote.0
        ),
        Note::NothingAgain { remote } => write!(
            text,
            "`inactivity_ms` of entity {} is no longer than `ack_ms` or `nak_ms`: a transaction ends before anything is sent again",
            remote.0
        ),
    }
}

// The table of a role's handlers.
fn table_of(role: Role) -> &'static str
    ensures { result.now ≡ table_of role }
{
    match role {
        Role::Send => "send",
        Role::RecvOne => "recv1",
        Role::RecvTwo => "recv2",
    }
}
