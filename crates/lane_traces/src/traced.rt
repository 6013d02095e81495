ghost use Rattle.std.specs.Prelude.{◌≡◌, ◌≤◌, length};
ghost use Rattle.std.specs.Option.{option_copied};
ghost use Rattle.cfdp_types.specs.declared.limits.TheConstants.{JOURNAL_ENTRIES};
ghost use Rattle.lane_traces.specs.Traces.{how_far_by, is_over, traced_by};

use cfdp_types::TxnKey;
use indications::Indication;
use txn_events::{Event, Refusal};

/// The progress of a transaction.
#[derive(Clone, Copy, Debug, PartialEq, Eq)]
pub struct Traced {
    /// The number of events that it has accepted.
    pub entries: u32,
    /// Whether its end was indicated.
    pub ended: bool,
}

/// The progress of the transaction with `key` at a lane. `last` is the lane's last key; `journal` and `told` are that
/// transaction's events and indications. Of the indications, only the last is read. An older number of the same source
/// is refused with `OldTransaction`, any other key with `NoTransaction`.
pub fn how_far(
    last: Option<TxnKey>,
    journal: &[Event],
    told: &[Indication],
    key: TxnKey,
) -> Result<Traced, Refusal>
    requires { length journal.now ≤ JOURNAL_ENTRIES }
    ensures { result ≡ how_far_by last journal.now told.now key }
{
    match last {
        None => Err(Refusal::NoTransaction),
        Some(last) if last == key => Ok(told_by(journal, told)),
        Some(last) if last.source == key.source && key.seq < last.seq => {
            Err(Refusal::OldTransaction)
        }
        Some(_) => Err(Refusal::NoTransaction),
    }
}

// The progress of a transaction, from its events and its indications.
fn told_by(journal: &[Event], told: &[Indication]) -> Traced
    requires { length journal.now ≤ JOURNAL_ENTRIES }
    ensures { result ≡ traced_by journal.now told.now }
{
    Traced {
        entries: journal.len() as u32,
        ended: is_over(told),
    }
}

// Whether the last indication is an end.
fn is_over(told: &[Indication]) -> bool
    ensures { result ≡ is_over told.now }
{
    match told.last() {
        None => false,
        Some(last) => last.is_end(),
    }
}
