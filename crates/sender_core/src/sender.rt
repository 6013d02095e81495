ghost use Rattle.std.specs.Prelude.{◌≡◌, ◌≤◌, length};
ghost use Rattle.cfdp_types.specs.declared.limits.TheConstants.{FILE_OCTETS};
ghost use Rattle.pdu_values.specs.Spelling.{HeaderFits};
ghost use Rattle.sender_table.specs.Answers.{header_of};
ghost use Rattle.sender_core.specs.ControlBlock.{IsSound, IsInside};
ghost use Rattle.sender_core.specs.Remaining.{to_send};

use crate::control::ControlBlock;
use crate::plan::Plan;
use crate::remainder::apply_remainder;
use crate::remaining::Remaining;
use cfdp_types::{Params, PutRequest, TxnKey};
use pdu_values::Header;
use std::alloc::Global;
use txn_events::Answer;

/// The sending end of one transaction, in either class.
#[derive(Drop)]
pub struct SenderCore {
    pub(crate) alloc: Global,
    pub(crate) key: TxnKey,
    pub(crate) params: Params,
    pub(crate) request: PutRequest,
    // The header of every PDU that the sender sends.
    pub(crate) header: Header,
    pub(crate) remaining: Remaining,
    pub(crate) control: ControlBlock,
    ghost headed: { header ≡ header_of (record { key = key; params = params; request = request }) },
    ghost fits: { HeaderFits header },
    ghost small: { length request.file ≤ FILE_OCTETS },
    ghost inside: { IsInside (length request.file) (to_send remaining) },
    ghost sound: { IsSound (length request.file) control },
}

impl SenderCore {
    ghost use Rattle.std.specs.Prelude.{◌≡◌, ◌<◌, ◌∷◌, [], None, false, List, IfOk, IfErr, length};
    ghost use Rattle.cfdp_types.specs.declared.limits.TheConstants.{FILE_OCTETS};
    ghost use Rattle.txn_events.specs.declared.refusal.Refusal.TheVariants as refusal;
    ghost use Rattle.sender_table.specs.Sending.{Event, Entry};
    ghost use Rattle.sender_core.specs.Core.{shown, sending_of, IsPlanOf, StandsAfter, plan_answer};

    /// Whether an end was issued. After it no event may follow.
    pub fn has_ended(&self) -> bool
        ensures { result ≡ (shown self.now).ended }
    {
        self.control.ended
    }

    /// Carries out a plan that was made in the present state, and returns its answer. Can't fail.
    pub fn commit(&mut self, plan: Plan) -> Answer
        requires planned { (event : Event) × IsPlanOf self.old plan event }
        requires runs { (shown self.old).ended ≡ false }
        ensures answer { result ≡ plan_answer plan }
        ensures nothing { result.deposit ≡ None }
        ensures sending { sending_of self.new ≡ sending_of self.old }
        ensures stands { (event : Event) (log : List Entry) → IsPlanOf self.old plan event → StandsAfter self.old log
            → StandsAfter self.new (record { event = event; answer = plan_answer plan } ∷ log) }
    {
        let Plan {
            next,
            remainder,
            answer,
        } = plan;
        apply_remainder(&mut self.remaining, remainder);
        self.control = next;
        answer
    }
}
