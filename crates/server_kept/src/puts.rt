//! The Put of a file of the outbox.
use cfdp_types::Octets;
use program_outbox::Outgoing;
use server_lines::PutCommand;

/// Where a Put that no client gave comes from: its number in the outbox, and its source file name, if that is another
/// than its path.
#[derive(Drop)]
pub struct FromOutbox {
    pub number: u64,
    pub source_name: Option<Octets>,
}

/// The path of the file that is to be read, if there is memory for it.
pub fn path_of(outgoing: &Outgoing) -> Option<Octets> {
    outgoing.reading()?.file.source.copy().ok()
}

/// The Put of the file that was read, in the user's first lane, and where it comes from, if there is memory for it.
pub fn put_of(outgoing: &Outgoing) -> Option<(PutCommand, FromOutbox)> {
    let waiting = outgoing.reading()?;
    let file = &waiting.file;
    let put = PutCommand {
        user: waiting.user,
        lane: 0,
        class: file.class,
        closure: file.closure,
        destination: file.destination,
        source: file.source.copy().ok()?,
        destination_name: file.destination_name.copy().ok()?,
    };
    let source_name = match &file.source_name {
        Some(name) => Some(name.copy().ok()?),
        None => None,
    };
    let from = FromOutbox {
        number: waiting.number,
        source_name,
    };
    Some((put, from))
}
