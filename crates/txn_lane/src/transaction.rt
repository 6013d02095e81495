use cfdp_types::Image;
use indications::Phase;
use lane_table::Glance;
use receiver_core::ReceiverCore;
use sender_core::SenderCore;
use std::alloc::{AllocError, Global};
use txn_events::{Answer, Refusal, What};

/// The transaction of a lane.
#[derive(Drop)]
pub(crate) enum TransactionCore {
    /// The file is being sent.
    Sender(SenderCore),
    /// The file is being received.
    Receiver(ReceiverCore),
    /// The transaction has ended and no deposit waits: only its glance is left.
    Ended(Glance),
}

/// An event that the transaction accepts, with its answer and all the memory that carrying it out needs. A plan can
/// be carried out in the state that it was made in. It is passed on often, so what is large in it is boxed.
#[derive(Drop)]
pub(crate) enum TransactionPlan {
    Sender(Box<sender_core::Plan>),
    Receiver(receiver_core::Plan),
}

impl TransactionPlan {
    ghost use Rattle.std.specs.Prelude.{◌≡◌};
    ghost use Rattle.txn_lane.specs.Transactions.{plan_answer};

    /// The answer that the event will get.
    pub(crate) fn answer(&self) -> &Answer
        ensures { result.now ≡ plan_answer self.now }
    {
        match self {
            TransactionPlan::Sender(plan) => plan.answer(),
            TransactionPlan::Receiver(plan) => plan.answer(),
        }
    }
}

impl TransactionCore {
    ghost use Rattle.std.specs.Prelude.{◌≡◌, false, Ok, IfOk, IfErr, OnOk, OnErr};
    ghost use Rattle.txn_events.specs.declared.event.Event.{Event};
    ghost use Rattle.txn_events.specs.declared.event.Event.TheVariants.{On};
    ghost use Rattle.cfdp_types.specs.declared.key.TxnKey.{TxnKey as KeyValue};
    ghost use Rattle.lane_table.specs.Logs.{Log, has_ended, answered_behind, extended, image_in};
    ghost use Rattle.txn_lane.specs.Transactions.{StandsAfter, IsPlanOf, IsSettled, IsWhy, plan_answer};

    /// Whether an end was issued. After it no event may follow.
    pub(crate) fn has_ended(&self) -> bool
        ensures { (log : Log) → StandsAfter self.now log → result ≡ has_ended log }
    {
        match self {
            TransactionCore::Sender(core) => core.has_ended(),
            TransactionCore::Receiver(core) => core.has_ended(),
            TransactionCore::Ended(_) => true,
        }
    }

    /// Plans an event without changing the state. The plan holds all memory that the event needs, and room is made for
    /// the octets that it brings.
    pub(crate) fn plan(&mut self, alloc: Global, what: &What) -> Result<TransactionPlan, Refusal>
        requires { (log : Log) × StandsAfter self.old log × (has_ended log ≡ false) }
        ensures same { (log : Log) → StandsAfter self.old log → StandsAfter self.new log }
        ensures planned { (key : KeyValue) → IfOk result (λ plan. IsPlanOf self.new plan (On key what.now)) }
        ensures refused { (key : KeyValue) (log : Log) → StandsAfter self.old log
            → IfErr result (λ why. IsWhy (answered_behind log (On key what.now)) why) }
    {
        match self {
            TransactionCore::Sender(core) => {
                let plan = core.plan(what)?;
                Ok(TransactionPlan::Sender(Box::new(alloc, plan)?))
            }
            TransactionCore::Receiver(core) => {
                let plan = core.plan(what)?;
                Ok(TransactionPlan::Receiver(plan))
            }
            TransactionCore::Ended(_) => unreachable!(),
        }
    }

    /// Carries out a plan that was made in the present state, and returns its answer.
    pub(crate) fn commit(&mut self, plan: TransactionPlan) -> Answer
        requires planned { (event : Event) × IsPlanOf self.old plan event }
        requires runs { (log : Log) × StandsAfter self.old log × (has_ended log ≡ false) }
        ensures answer { result ≡ plan_answer plan }
        ensures stands { (event : Event) (log : Log) → IsPlanOf self.old plan event → StandsAfter self.old log
            → StandsAfter self.new (extended log event (plan_answer plan)) }
    {
        match (self, plan) {
            (TransactionCore::Sender(core), TransactionPlan::Sender(plan)) => {
                core.commit(Box::into_inner(plan))
            }
            (TransactionCore::Receiver(core), TransactionPlan::Receiver(plan)) => core.commit(plan),
            _ => unreachable!(),
        }
    }

    /// The file of the waiting deposit with this stamp; a sender has none.
    pub(crate) fn image(&self, stamp: u32) -> Result<Image, Refusal>
        ensures image { (log : Log) → StandsAfter self.now log → IfOk result (λ image. image_in log stamp ≡ Ok image) }
        ensures refused { (log : Log) → StandsAfter self.now log → IfErr result (λ why. IsWhy (image_in log stamp) why) }
    {
        match self {
            TransactionCore::Sender(_) | TransactionCore::Ended(_) => Err(Refusal::StaleStored),
            TransactionCore::Receiver(core) => core.image(stamp),
        }
    }

    /// Frees all but the glance, if the transaction has ended and no deposit waits: the file with its gaps, or the
    /// request. An error means that there is no memory for the names in the glance.
    pub(crate) fn settle(&mut self) -> Result<(), AllocError>
        ensures stands { (log : Log) → StandsAfter self.old log → StandsAfter self.new log }
        ensures settled { (log : Log) → StandsAfter self.old log → OnOk result (IsSettled self.new log) }
        ensures same { OnErr result (self.new ≡ self.old) }
    {
        if self.has_ended() {
            let glance = self.glance()?;
            if glance.phase != Phase::Storing {
                *self = TransactionCore::Ended(glance);
            }
        }
        Ok(())
    }
}
