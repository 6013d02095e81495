use crate::octets::Octets;

/// A received file, as it is handed to the file store.
#[derive(Debug, Drop, PartialEq, Eq)]
pub struct Image {
    /// The file's name at the sender.
    pub source_name: Octets,
    /// The file's name at the receiver.
    pub destination_name: Octets,
    /// The file's content.
    pub octets: Octets,
}
