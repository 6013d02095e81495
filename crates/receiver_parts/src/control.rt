ghost use Rattle.std.specs.Prelude.{◌≡◌};

use indications::Phase;
use pdu_values::{Eof, Finished};
use txn_events::{Stamps, Tries};

/// The transaction control block: the state of a reception without the Metadata and the received octets.
#[derive(Clone, Copy)]
pub struct ControlBlock {
    /// The number of events so far.
    pub entries: u32,
    /// One more than the greatest offset received, 0 if there is none.
    pub progress: u32,
    /// Whether the first Metadata requests transaction closure.
    pub closure: Option<bool>,
    /// The first EOF without an error.
    pub eof: Option<Eof>,
    /// The stamp of the deposit that is waiting for the file store's answer.
    pub waiting: Option<u32>,
    /// The last Finished PDU that was sent.
    pub finished: Option<Finished>,
    /// Whether Suspended was issued, and no Resumed since.
    pub paused: bool,
    /// Whether an end was issued.
    pub ended: bool,
    pub armed: Stamps,
    pub tries: Tries,
}

impl ControlBlock {
    ghost use Rattle.std.specs.Prelude.{◌≡◌, is_some};
    ghost use Rattle.cfdp_types.specs.Steps.{is_stamp};
    ghost use Rattle.receiver_table.specs.Reception.{is_closing, is_storing, is_suspended};
    ghost use Rattle.receiver_table.specs.Answers.{asks_closure, phase_of, scope_of};
    ghost use Rattle.receiver_parts.specs.ControlBlock.{bare, first, IsSmall};

    /// The control block before the first event.
    pub fn first() -> ControlBlock
        ensures { result ≡ first }
    {
        ControlBlock {
            entries: 0,
            progress: 0,
            closure: None,
            eof: None,
            waiting: None,
            finished: None,
            paused: false,
            ended: false,
            armed: Stamps::NONE,
            tries: Tries::NONE,
        }
    }

    /// Whether transaction closure is requested.
    pub fn asks_closure(&self) -> bool
        ensures { result ≡ asks_closure (bare self.now) }
    {
        self.closure.unwrap_or(false)
    }

    /// Whether a Finished PDU was sent, and no end was issued yet.
    pub fn is_closing(&self) -> bool
        ensures { result ≡ is_closing (bare self.now) }
    {
        self.finished.is_some() && !self.ended
    }

    /// Whether the file store was asked and has not answered.
    pub fn is_storing(&self) -> bool
        ensures { result ≡ is_storing (bare self.now) }
    {
        self.waiting.is_some()
    }

    /// Whether the deposit with this stamp is waiting for the file store's answer.
    pub fn waits_for(&self, stamp: u32) -> bool
        ensures { result ≡ is_stamp self.now.waiting stamp }
    {
        match self.waiting {
            None => false,
            Some(kept) => kept == stamp,
        }
    }

    /// Whether the reception is suspended.
    pub fn is_suspended(&self) -> bool
        ensures { result ≡ is_suspended (bare self.now) }
    {
        self.paused && self.finished.is_none() && !self.ended
    }

    /// The end of the scope of a NAK: the EOF's size, or the progress before an EOF was received.
    pub fn scope(&self) -> u32
        requires { IsSmall self.now }
        ensures { result ≡ scope_of (bare self.now) }
    {
        match self.eof {
            None => self.progress,
            Some(eof) => eof.size as u32,
        }
    }

    /// The phase that a report gives.
    pub fn phase(&self) -> Phase
        ensures { result ≡ phase_of (bare self.now) }
    {
        if self.is_storing() {
            Phase::Storing
        } else if self.is_closing() {
            Phase::Closing
        } else if self.is_suspended() {
            Phase::Suspended
        } else {
            Phase::Active
        }
    }
}
