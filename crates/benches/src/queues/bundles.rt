//! What lanes send here: transactions that are over at once.
ghost use Rattle.std.specs.Prelude.{IfOk};
ghost use Rattle.queue_tests.specs.Senders.{IsOver};

use cfdp_types::{Condition, EntityId, TxnKey};
use indications::{Bundle, Indication, Indications};
use std::alloc::{AllocError, Global};

// The number of different progress values.
const PROGRESSES: u64 = 4_294_967_296;

/// The only bundle of the transaction with a number, which is also its progress.
pub(crate) fn bundle_of(alloc: Global, lane: usize, seq: u64) -> Result<Bundle, AllocError>
    ensures { IfOk result (λ bundle. IsOver bundle lane seq) }
{
    let mut inds = Indications::new(alloc);
    inds.push(Indication::Abandoned {
        condition: Condition::NO_ERROR,
        progress: (seq % PROGRESSES) as u32,
    })?;
    let key = TxnKey {
        source: EntityId(1),
        seq,
    };
    Ok(Bundle {
        user: 0,
        lane,
        key,
        inds,
    })
}
