//! Laws of every transaction and of every lane, stated over the definitions alone.

ghost use Rattle.lane_table.specs.Images.{GivesOwnFiles};
ghost use Rattle.lane_table.specs.Glances.{SaysAsReport};
ghost use Rattle.lane_table.specs.LaneLaws.{TellsWords, CompletesGood, SendsLaneLists, SendsWhatLogsTell, NumbersTellLanes, StepsKeep, FitsJournal, KeepsToLimit};

/// The indications of a transaction, at either end, are the beginning of a word of its side, and a whole word once it
/// has ended.
pub fn words()
    ensures { TellsWords }
{}

/// A receiver indicates a complete delivery only where Metadata and EOF were received, with every octet below the
/// EOF's size and none at or above it, and the modular checksum agrees, unless the file has none.
pub fn complete()
    ensures { CompletesGood }
{}

/// For all events that a lane accepts, from its first one on: it sends its user the words of its transactions in
/// order, with rising numbers. Only the last may be the beginning of a word.
pub fn lists()
    ensures { SendsLaneLists }
{}

/// For all events that a lane accepts, from its first one on: what it sends of each transaction is exactly what the log
/// of that transaction's own events issues.
pub fn issued()
    ensures { SendsWhatLogsTell }
{}

/// The numbers of a sending lane's transactions determine the user and the lane, so no two lanes share a number. This
/// holds for a lane among its user's and a user among the entity's.
pub fn numbers()
    ensures { NumbersTellLanes }
{}

/// What a lane knows of the bundles that it sent still holds after each event that it accepts, with that step's bundle
/// added.
pub fn keeps()
    ensures { StepsKeep }
{}

/// The image that a lane gives of a waiting deposit is that of a reception with the requested key: it has the names in
/// the first Metadata and, at each offset below the EOF's size, the octet that was received there first.
pub fn images()
    ensures { GivesOwnFiles }
{}

/// The log of a transaction, at either end, has at most as many entries as a journal may have.
pub fn lengths()
    ensures { FitsJournal }
{}

/// The journal of a lane has at most as many events as a journal may have; further events are refused.
pub fn journals()
    ensures { KeepsToLimit }
{}

/// A glance shows what a Report would, but is not an event and takes no place in the journal.
pub fn reports()
    ensures { SaysAsReport }
{}
