//! The level of each event.
ghost use Rattle.std.specs.Prelude.{◌≡◌};
ghost use Rattle.event_levels.specs.Events.{is_good_end, level_of, level_of_indication, level_when};

use crate::level::Level;
use cfdp_types::{Condition, Delivery, FileStatus};
use indications::Indication;

/// What an event says.
#[derive(Clone, Copy, Debug)]
pub enum EventKind<'a> {
    /// The server has started, or ends.
    Start,
    End,
    /// An indication to a user.
    Indication(&'a Indication),
    /// A Put opened a transaction.
    Put,
    /// A file of the outbox was given up.
    Unsent,
    /// The store kept a file, or did not.
    Stored(bool),
    /// Something was refused.
    Refused,
    /// A link is held, or is open again.
    Hold,
    Release,
    /// Parked datagrams were dropped.
    Unparked,
    /// Transaction numbers were used up without a file.
    Skipped,
    /// A transaction was abandoned because its journal is full.
    JournalFull,
    /// A command was given.
    Command,
}

impl EventKind<'_> {
    /// How much it matters.
    pub fn level(self) -> Level
        ensures { result ≡ level_of self.entry }
    {
        match self {
            EventKind::Indication(indication) => level_of_indication(indication),
            EventKind::Stored(is_kept) => level_when(is_kept),
            EventKind::Start
            | EventKind::End
            | EventKind::Put
            | EventKind::Hold
            | EventKind::Release
            | EventKind::Skipped
            | EventKind::Command => Level::Info,
            EventKind::Unsent | EventKind::Refused | EventKind::Unparked | EventKind::JournalFull =>
                Level::Warning,
        }
    }
}

// The level of what goes as it should, or doesn't.
fn level_when(is_good: bool) -> Level
    ensures { result ≡ level_when is_good }
{
    if is_good { Level::Info } else { Level::Warning }
}

fn level_of_indication(indication: &Indication) -> Level
    ensures { result ≡ level_of_indication indication.now }
{
    match indication {
        Indication::FileSegmentRecv { .. } => Level::Detail,
        Indication::TransactionFinished {
            condition,
            delivery,
            status,
        } => level_when(is_good_end(*condition, *delivery, *status)),
        Indication::Suspended { condition } => level_when(*condition == Condition::SUSPEND_REQUEST),
        Indication::Fault { .. } | Indication::Abandoned { .. } => Level::Warning,
        Indication::Transaction
        | Indication::EofSent
        | Indication::EofRecv
        | Indication::MetadataRecv(_)
        | Indication::Resumed { .. }
        | Indication::Report { .. } => Level::Info,
    }
}

// Whether a transaction ended as it should: without a fault, and either the file is complete and retained, or the
// receiver reports nothing.
fn is_good_end(condition: Condition, delivery: Delivery, status: FileStatus) -> bool
    ensures { result ≡ is_good_end condition delivery status }
{
    condition == Condition::NO_ERROR
        && (matches!(delivery, Delivery::Complete) && matches!(status, FileStatus::Retained)
            || matches!(status, FileStatus::Unreported))
}
