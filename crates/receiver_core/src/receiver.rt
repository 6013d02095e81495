ghost use Rattle.std.specs.Prelude.{◌≡◌, ℕ};
ghost use Rattle.gap_list.specs.Covered.{covered};
ghost use Rattle.pdu_values.specs.Spelling.{HeaderFits};
ghost use Rattle.receiver_parts.specs.ControlBlock.{IsSound};
ghost use Rattle.receiver_parts.specs.Offsets.{IsInside};

use crate::plan::{Plan, Step};
use cfdp_types::{Params, TxnKey};
use pdu_values::{Header, Metadata};
use receiver_parts::control::ControlBlock;
use receiver_parts::file_change::FileChange;
use receiver_parts::received_file::ReceivedFile;
use std::alloc::Global;
use std::mem;
use txn_events::Answer;

/// The receiving end of one transaction, in either class.
#[derive(Drop)]
pub struct ReceiverCore {
    pub(crate) alloc: Global,
    pub(crate) key: TxnKey,
    pub(crate) params: Params,
    // The header of the PDU that opened the reception.
    pub(crate) header: Header,
    pub(crate) file: ReceivedFile,
    pub(crate) metadata: Option<Metadata>,
    pub(crate) control: ControlBlock,
    // The memory of the step before, for the next one.
    pub(crate) spare: Option<Box<Step>>,
    ghost fits: { HeaderFits header },
    ghost sound: { IsSound control },
    ghost reached: { IsInside control.progress (covered file.gaps) },
}

impl ReceiverCore {
    ghost use Rattle.std.specs.Prelude.{◌≡◌, ◌∷◌, ℕ, false, List};
    ghost use Rattle.txn_events.specs.declared.event.What.{What};
    ghost use Rattle.receiver_table.specs.Reception.{Entry};
    ghost use Rattle.receiver_core.specs.Core.{shown, reception_of, IsPlanOf, StandsAfter, plan_answer};

    /// Whether an end was issued. After it no event may follow.
    pub fn has_ended(&self) -> bool
        ensures { result ≡ (shown self.now).ended }
    {
        self.control.ended
    }

    /// Carries out a plan that was made in the present state, and returns its answer. Can't fail.
    pub fn commit(&mut self, plan: Plan) -> Answer
        requires planned { (event : What) × IsPlanOf self.old plan event }
        requires runs { (shown self.old).ended ≡ false }
        ensures answer { result ≡ plan_answer plan }
        ensures reception { reception_of self.new ≡ reception_of self.old }
        ensures stands { (event : What) (log : List Entry) → IsPlanOf self.old plan event → StandsAfter self.old log
            → StandsAfter self.new (record { event = event; answer = plan_answer plan } ∷ log) }
    {
        let Plan { step, answer } = plan;
        let mut spare = step;
        let held = &mut *spare;
        let change = mem::replace(&mut held.change, FileChange::Nothing);
        self.control = held.next;
        change.apply(&mut self.file, &mut self.metadata);
        self.spare = Some(spare);
        answer
    }
}
