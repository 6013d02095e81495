use crate::received_file::{NewSegment, ReceivedFile};
use pdu_values::Metadata;

/// What an event changes in the received file or its Metadata.
#[derive(Drop)]
pub enum FileChange {
    Nothing,
    /// The first Metadata.
    Metadata(Metadata),
    NewSegment(NewSegment),
}

impl FileChange {
    ghost use Rattle.std.specs.Prelude.{◌≡◌, ℕ};
    ghost use Rattle.receiver_parts.specs.ReceivedFile.{received_of};
    ghost use Rattle.receiver_parts.specs.FileChange.{adds, FitsFile, HasRoom, metadata_after, received_after};

    /// Whether it is the first Metadata, or file data with new octets.
    pub fn adds(&self) -> bool
        ensures { result ≡ adds self.now }
    {
        match self {
            FileChange::Nothing => false,
            FileChange::Metadata(_) => true,
            FileChange::NewSegment(segment) => !segment.runs.is_empty(),
        }
    }

    /// Carries out the change, without allocating.
    pub fn apply(self, file: &mut ReceivedFile, metadata: &mut Option<Metadata>)
        requires fits { FitsFile file.old self }
        requires room { HasRoom file.old self }
        ensures metadata { metadata.new ≡ metadata_after metadata.old self }
        ensures received { (i : ℕ) → received_of file.new i ≡ received_after file.old self i }
    {
        match self {
            FileChange::Nothing => {}
            FileChange::Metadata(first) => *metadata = Some(first),
            FileChange::NewSegment(segment) => file.take(segment),
        }
    }
}
