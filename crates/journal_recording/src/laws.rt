//! Laws of every script that is made, about the definitions alone.

ghost use Rattle.journal_recording.specs.Laws.{TakesAll, TakesWhatWasIssued};

/// The takes of a script give its user all that the entity issued to that user while it played.
pub fn takes_all()
    ensures { TakesAll }
{}

/// Where the lane's transaction has exactly the journal's events, what the script's takes give of that transaction is
/// exactly the indications that the log of the journal issues.
pub fn takes_what_was_issued()
    ensures { TakesWhatWasIssued }
{}
