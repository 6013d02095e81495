//! Laws that hold for every reception, stated over the definitions alone.
#![tactic(auto)]

ghost use Rattle.receiver_laws.specs.ReceptionLaws.{AsksAsMetadata, CompletesGood, DepositsGood, FitsJournal, TellsWords};

/// The indications of a reception are the beginning of a receiver's word, and a whole word once the reception has
/// ended. This holds for all parameters, with suspensions, timer expirations, user requests and fault handlers.
pub fn words()
    ensures { TellsWords }
{}

/// A complete delivery is indicated only where Metadata and EOF were received, with every octet below the EOF's size
/// and none at or above it, and the modular checksum agrees, unless the file has no checksum.
pub fn complete()
    ensures { CompletesGood }
{}

/// While a deposit waits, the file is good as in [`complete`]. Its image has the names of its Metadata and, at each
/// offset below the EOF's size, the octet that was received there first.
pub fn deposits()
    ensures { DepositsGood }
{}

/// Whether closure is requested follows from the first Metadata alone: nothing is known before it is received, and
/// nothing received later changes it.
pub fn closure()
    ensures { AsksAsMetadata }
{}

/// A reception has at most as many entries as a journal may have, for all parameters. The last place but one is
/// reserved for the file store's answer, and the last for Abandon, which ends the reception.
pub fn lengths()
    ensures { FitsJournal }
{}
