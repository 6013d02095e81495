//! Laws that hold for every sender, stated over the definitions alone.
#![tactic(auto)]

ghost use Rattle.sender_laws.specs.SendingLaws.{FitsJournal, TellsWords};

/// The indications of a sender are the beginning of a sender's word, and a whole word once the transaction has ended.
pub fn words()
    ensures { TellsWords }
{}

/// A sender has fewer entries than a journal may have, for all parameters. Of the last two places one is reserved for
/// Abandon, which ends the transaction, and one for the file store's answer, which a sender never needs.
pub fn lengths()
    ensures { FitsJournal }
{}
