ghost use Rattle.std.specs.Prelude.{◌≡◌};

use cfdp_types::Condition;
use indications::Phase;
use pdu_values::Eof;
use txn_events::{Stamps, Tries};

/// The transaction control block: the state of a sender without the offsets that remain to be sent.
#[derive(Clone, Copy)]
pub(crate) struct ControlBlock {
    /// The number of events so far.
    pub(crate) entries: u32,
    /// Whether Metadata remains to be sent.
    pub(crate) metadata_remains: bool,
    /// One more than the greatest offset sent, 0 if there is none.
    pub(crate) progress: u32,
    /// The last EOF that was sent.
    pub(crate) eof: Option<Eof>,
    /// Whether the EOF without an error was acknowledged.
    pub(crate) acknowledged: bool,
    /// Whether Suspended was issued, and no Resumed since.
    pub(crate) paused: bool,
    /// Whether an end was issued.
    pub(crate) ended: bool,
    pub(crate) armed: Stamps,
    pub(crate) tries: Tries,
}

impl ControlBlock {
    ghost use Rattle.std.specs.Prelude.{◌≡◌, ◌&&◌, not};
    ghost use Rattle.sender_table.specs.Sending.{is_cancel, is_closing, is_suspended};
    ghost use Rattle.sender_table.specs.Answers.{phase_of, condition_of};
    ghost use Rattle.sender_core.specs.ControlBlock.{state_from, nowhere, first};

    /// The control block before the Put.
    pub(crate) fn first() -> ControlBlock
        ensures { result ≡ first 0 }
    {
        ControlBlock {
            entries: 0,
            metadata_remains: true,
            progress: 0,
            eof: None,
            acknowledged: false,
            paused: false,
            ended: false,
            armed: Stamps::NONE,
            tries: Tries::NONE,
        }
    }

    // Whether an EOF with an error was sent.
    fn is_cancelled(&self) -> bool
        ensures { result ≡ is_cancel self.now.eof }
    {
        match self.eof {
            None => false,
            Some(eof) => eof.condition != Condition::NO_ERROR,
        }
    }

    /// Whether an EOF with an error was sent, and no end was issued yet.
    pub(crate) fn is_closing(&self) -> bool
        ensures { result ≡ is_closing (state_from self.now nowhere) }
    {
        self.is_cancelled() && !self.ended
    }

    /// Whether the transaction is suspended.
    pub(crate) fn is_suspended(&self) -> bool
        ensures { result ≡ is_suspended (state_from self.now nowhere) }
    {
        self.paused && !self.is_cancelled() && !self.ended
    }

    /// The condition code of the last EOF, no error where none was sent.
    pub(crate) fn condition(&self) -> Condition
        ensures { result ≡ condition_of self.now.eof }
    {
        match self.eof {
            None => Condition::NO_ERROR,
            Some(eof) => eof.condition,
        }
    }

    /// The phase that a report gives.
    pub(crate) fn phase(&self) -> Phase
        ensures { result ≡ phase_of (state_from self.now nowhere) }
    {
        if self.is_closing() {
            Phase::Closing
        } else if self.is_suspended() {
            Phase::Suspended
        } else {
            Phase::Active
        }
    }
}
