//! Laws of every run of an entity of one thread, stated over the definitions alone.

ghost use Rattle.world_table.specs.HistoryLaws.{
  DeliversGood,
  GivesImages,
  KeepsEventsApart,
  KeepsJournals,
  LanesKeep,
  LogsAreLegal,
  TakesAllInOrder,
  TellsLaneLists,
  TellsWhatLogsTell,
};

/// What a user took, followed by what still waits, is all that the user's lanes issued: each bundle once, in the
/// order in which it was issued.
pub fn takes()
    ensures { TakesAllInOrder }
{}

/// What each lane issues is a list of transactions with rising numbers, each a word of the lane's end. Only the last
/// may be the beginning of a word, so that nothing follows the end of a transaction.
pub fn lists()
    ensures { TellsLaneLists }
{}

/// The user's indications of a transaction are exactly what the log of its own events issues.
pub fn issued()
    ensures { TellsWhatLogsTell }
{}

/// A lane's journal has exactly the events of the transaction that it opened last.
pub fn journals()
    ensures { KeepsJournals }
{}

/// The events of a transaction are its Put and the events with its own key; each PDU among them has that key too.
pub fn events()
    ensures { KeepsEventsApart }
{}

/// What a lane has issued fits the lane's state, so that it may issue the indications of its next step.
pub fn keeps()
    ensures { LanesKeep }
{}

/// The state of each lane is sound, and the log of each of its transactions is legal for the lane's end.
pub fn sound()
    ensures { LogsAreLegal }
{}

/// Where a receiving lane indicates a complete delivery, Metadata and EOF were received, with every octet below the
/// EOF's size and none at or above it, and the modular checksum agrees, unless the file has none.
pub fn complete()
    ensures { DeliversGood }
{}

/// The image that a lane gives of a waiting deposit belongs to the requested transaction: it has the names in its first
/// Metadata and, at each offset below the EOF's size, the octet that was received there first.
pub fn images()
    ensures { GivesImages }
{}
