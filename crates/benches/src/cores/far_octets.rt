//! Receptions of one octet at an offset, each of which its sender then cancels.
use crate::cores::datagrams::{KEY, cancel, file_data};
use crate::cores::setting::params;
use crate::fault::Fault;
use receiver_core::ReceiverCore;
use std::alloc::Global;
use txn_events::What;

// Receives an octet and the sender's cancel, and returns how many indications the user gets.
fn receive_one(alloc: Global, offset: u32) -> Result<u64, Fault> {
    let pdu = file_data(alloc, offset, b"a")?;
    if !ReceiverCore::may_open(KEY, &pdu) {
        return Err(Fault::Ended);
    }
    let (mut core, plan) = ReceiverCore::open(alloc, KEY, &pdu, params()?)?;
    let first = core.commit(plan);
    if core.has_ended() {
        return Err(Fault::Ended);
    }
    let plan = core.plan(&What::Pdu(cancel(alloc)?))?;
    let last = core.commit(plan);
    let indications = first.inds.as_slice().len() + last.inds.as_slice().len();
    Ok(indications as u64)
}

/// Receives an octet at this offset this many times, each in its own reception, and counts the indications.
pub(crate) fn receive(alloc: Global, offset: u32, times: u32) -> Result<u64, Fault> {
    let mut indications = 0u64;
    for _ in 0..times {
        indications = indications.saturating_add(receive_one(alloc, offset)?);
    }
    Ok(indications)
}
