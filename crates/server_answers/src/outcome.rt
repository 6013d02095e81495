//! A request to the entity that was taken, or why it was not.
ghost use Rattle.std.specs.Prelude.{◌≡◌, ◌++◌, OnOk};
ghost use Rattle.std.specs.String.{string_bytes};
ghost use Rattle.server_answers.specs.Outcomes.{declined_text, may_pass, outcome_text};

use crate::answers::{push_bad_command, push_entity_refusal, push_no_memory, push_taken};
use cfdp_types::{Deposit, TxnKey};
use entity_parts::EntityRefusal;
use std::alloc::{AllocError, Global};

/// What the entity took.
#[derive(Clone, Copy, Debug, PartialEq, Eq)]
pub struct Taken {
    pub key: TxnKey,
    /// Whether it is a Put, which opened the transaction.
    pub is_put: bool,
    pub deposit: Option<Deposit>,
}

/// Why a Put, or another request, was not taken.
#[derive(Debug, Drop)]
pub enum Declined {
    /// The user may not ask for it, or no request can have its names.
    Malformed,
    /// Memory ran out before the entity was asked.
    NoMemory,
    /// The file can't be read.
    Unreadable,
    /// The file of numbers can't be written, so the Put's number isn't covered.
    Uncovered,
    /// The entity refused it.
    Refused(EntityRefusal),
}

/// What became of a request.
pub type Outcome = Result<Taken, Declined>;

/// Adds the reply to a request.
pub fn push_outcome(alloc: Global, text: &mut String, outcome: &Outcome) -> Result<(), AllocError>
    ensures { OnOk result (string_bytes text.new ≡ string_bytes text.old ++ outcome_text outcome.now) }
{
    match outcome {
        Ok(taken) => push_taken(text, taken.is_put, taken.key, taken.deposit),
        Err(declined) => push_declined(alloc, text, declined),
    }
}

/// Adds the reply to a request that was not taken: its first line is the reason.
pub fn push_declined(
    alloc: Global,
    text: &mut String,
    declined: &Declined,
) -> Result<(), AllocError>
    ensures { OnOk result (string_bytes text.new ≡ string_bytes text.old ++ declined_text declined.now) }
{
    match declined {
        Declined::Malformed => push_bad_command(text),
        Declined::NoMemory => push_no_memory(text),
        Declined::Unreadable => text.push_str("read fault\n"),
        Declined::Uncovered => text.push_str("numbers fault\n"),
        Declined::Refused(refusal) => push_entity_refusal(alloc, text, refusal),
    }
}

/// Whether a file of the outbox that was not taken may be taken later: memory ran out, its user's queue was full, or the
/// file of numbers can't be written and the outbox is kept over restarts.
pub fn may_pass(declined: &Declined, is_kept: bool) -> bool
    ensures { result ≡ may_pass declined.now is_kept }
{
    match declined {
        Declined::NoMemory => true,
        Declined::Uncovered => is_kept,
        Declined::Refused(refusal) => refusal.is_passing(),
        Declined::Malformed | Declined::Unreadable => false,
    }
}
