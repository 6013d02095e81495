//! Laws of every run of an entity with its configuration, stated over the definitions alone.

ghost use Rattle.world_laws.specs.EntityLaws.{DeliversFiles, RoutesHome, TellsAtHome, TellsNothingMore, TellsWords};

/// An admissible event goes to the lane where it belongs, or to none: a Put to a sending lane of its user, any other
/// event to the lane of its transaction.
pub fn routes()
    ensures { RoutesHome }
{}

/// A user's indications are of transactions that belong to this user, and each comes from the lane that its transaction
/// belongs to. So a transaction stays in one lane of one user for the whole run.
pub fn keys()
    ensures { TellsAtHome }
{}

/// After the end of a transaction is indicated, no user gets any more indications of it, however the run continues.
pub fn ended()
    ensures { TellsNothingMore }
{}

/// A user's indications of a transaction are the beginning of a word, whatever else happens in the entity: of a
/// sender's word where the entity itself sends the file, otherwise of a receiver's.
pub fn words()
    ensures { TellsWords }
{}

/// Where a file from another entity is indicated as complete, that transaction's Metadata and EOF were received, with
/// every octet below the EOF's size and none at or above it, and the modular checksum agrees, unless the file has none.
pub fn complete()
    ensures { DeliversFiles }
{}
