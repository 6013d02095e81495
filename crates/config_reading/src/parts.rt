use crate::entity::EntitySettings;
use crate::remote::Peer;

/// The parts of an entity's configuration, as read from a text.
#[derive(Debug, Drop)]
pub struct ConfigParts {
    /// The settings of the entity itself.
    pub entity: EntitySettings,
    /// The users' names, in the order of the text.
    pub users: Vec<String>,
    /// The remote entities, in the order of the text.
    pub peers: Vec<Peer>,
}
