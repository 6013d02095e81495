//! Glances: the state of a lane, read without an event.
ghost use Rattle.std.specs.Prelude.{◌≡◌, IfOk, option_copied, option_map};
ghost use Rattle.sender_core.specs.Core as sender;
ghost use Rattle.sender_core.specs.Core.{sending_of};
ghost use Rattle.receiver_core.specs.Core as receiver;
ghost use Rattle.receiver_core.specs.Core.{reception_of};
ghost use Rattle.lane_table.specs.Glances.{file_of_metadata, glance_at_receiver, glance_at_sender};

use crate::lane::Lane;
use crate::transaction::TransactionCore;
use indications::Side;
use lane_table::{Glance, GlancedFile};
use pdu_values::Metadata;
use receiver_core::ReceiverCore;
use sender_core::SenderCore;
use std::alloc::AllocError;

impl TransactionCore {
    ghost use Rattle.std.specs.Prelude.{◌≡◌, IfOk};
    ghost use Rattle.lane_table.specs.Logs.{Log};
    ghost use Rattle.lane_table.specs.Glances.{glance_in};
    ghost use Rattle.txn_lane.specs.Transactions.{StandsAfter};

    /// A glance at the transaction.
    pub(crate) fn glance(&self) -> Result<Glance, AllocError>
        ensures { (log : Log) → StandsAfter self.now log → IfOk result (λ glance. glance ≡ glance_in log) }
    {
        match self {
            TransactionCore::Sender(core) => glance_at_sender(core),
            TransactionCore::Receiver(core) => glance_at_receiver(core),
            TransactionCore::Ended(glance) => copied(glance),
        }
    }
}

impl Lane {
    ghost use Rattle.std.specs.Prelude.{◌≡◌, IfOk};
    ghost use Rattle.lane_table.specs.Glances.{glance_of};

    /// A glance at the transaction that the lane runs or ran last, if there is one. Copies the names of its file.
    pub fn glance(&self) -> Result<Option<Glance>, AllocError>
        ensures { IfOk result (λ glance. glance ≡ glance_of self.now) }
    {
        match &self.running {
            None => Ok(None),
            Some(running) => Ok(Some(running.core.glance()?)),
        }
    }
}

// A glance at a sender.
fn glance_at_sender(core: &SenderCore) -> Result<Glance, AllocError>
    ensures { IfOk result (λ glance. glance ≡ glance_at_sender (sending_of core.now) (sender.shown core.now)) }
{
    let request = core.request();
    let file = GlancedFile {
        size: request.file().as_slice().len() as u64,
        source_name: request.source_name().copy()?,
        destination_name: request.destination_name().copy()?,
    };
    Ok(Glance {
        key: core.key(),
        end: Side::Sender,
        peer: request.destination(),
        class: request.class(),
        phase: core.phase(),
        progress: core.progress(),
        has_ended: core.has_ended(),
        entries: core.entries(),
        file: Some(file),
    })
}

// A glance at a receiver.
fn glance_at_receiver(core: &ReceiverCore) -> Result<Glance, AllocError>
    ensures { IfOk result (λ glance. glance ≡ glance_at_receiver (reception_of core.now) (receiver.shown core.now)) }
{
    let key = core.key();
    let file = described(core.metadata())?;
    Ok(Glance {
        key,
        end: Side::Receiver,
        peer: key.source,
        class: core.class(),
        phase: core.phase(),
        progress: core.progress(),
        has_ended: core.has_ended(),
        entries: core.entries(),
        file,
    })
}

// A copy of a glance.
fn copied(glance: &Glance) -> Result<Glance, AllocError>
    ensures { IfOk result (λ copy. copy ≡ glance.now) }
{
    let file = match &glance.file {
        None => None,
        Some(file) => Some(GlancedFile {
            size: file.size,
            source_name: file.source_name.copy()?,
            destination_name: file.destination_name.copy()?,
        }),
    };
    Ok(Glance { file, ..*glance })
}

// The file that the Metadata describes, if there is Metadata.
fn described(metadata: Option<&Metadata>) -> Result<Option<GlancedFile>, AllocError>
    ensures { IfOk result (λ file. file ≡ option_map file_of_metadata (option_copied metadata.entry)) }
{
    match metadata {
        None => Ok(None),
        Some(first) => Ok(Some(GlancedFile {
            size: first.size,
            source_name: first.source_name.copy()?,
            destination_name: first.destination_name.copy()?,
        })),
    }
}
