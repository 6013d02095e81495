//! Opening a transaction.
use crate::transaction::{TransactionCore, TransactionPlan};
use cfdp_types::{Params, PutRequest, TxnKey};
use lane_table::LaneSide;
use pdu_values::Pdu;
use receiver_core::ReceiverCore;
use sender_core::SenderCore;
use std::alloc::Global;
use txn_events::{Event, Refusal, What};

impl TransactionCore {
    ghost use Rattle.std.specs.Prelude.{Some, IsSome, IfOk, IfErr};
    ghost use Rattle.cfdp_types.specs.declared.key.TxnKey.{TxnKey as KeyValue};
    ghost use Rattle.txn_events.specs.declared.event.What.TheVariants as what;
    ghost use Rattle.txn_events.specs.declared.event.Event.TheVariants.{Put, On};
    ghost use Rattle.lane_table.specs.Logs.{sends, receives, opened_by, IsOfKey, first_answer};
    ghost use Rattle.sender_core.specs.Core.{sending_by};
    ghost use Rattle.receiver_core.specs.Core.{reception_by, MayOpen};
    ghost use Rattle.txn_lane.specs.Transactions.{IsOpenedBy, IsWhy};

    // The sending transaction that a Put opens.
    #[tactic(auto, unfolding(sender_table::specs::Sending::state_of))]
    fn put(
        alloc: Global,
        key: TxnKey,
        request: &PutRequest,
        params: Params,
    ) -> Result<(TransactionCore, TransactionPlan), Refusal>
        ensures opened { IfOk result (λ opened. IsOpenedBy (Some (sends (sending_by key params request.now)))
            (Put request.now params) opened.0 opened.1) }
        ensures refused { IfErr result (λ why. IsWhy
            (first_answer (Some (sends (sending_by key params request.now))) (Put request.now params)) why) }
    {
        let (core, plan) = SenderCore::open(alloc, key, request, params)?;
        let core = TransactionCore::Sender(core);
        Ok((core, TransactionPlan::Sender(Box::new(alloc, plan)?)))
    }

    // The reception that a PDU opens.
    #[tactic(auto, unfolding(receiver_table::specs::Reception::state_of))]
    fn receive(
        alloc: Global,
        key: TxnKey,
        pdu: &Pdu,
        params: Params,
    ) -> Result<(TransactionCore, TransactionPlan), Refusal>
        requires opens { MayOpen key pdu.now }
        ensures opened { (named : KeyValue) → IfOk result (λ opened. IsOpenedBy
            (Some (receives (reception_by key params pdu.now.header))) (On named (what.Pdu pdu.now)) opened.0 opened.1) }
        ensures refused { (named : KeyValue) → IfErr result (λ why. IsWhy (first_answer
            (Some (receives (reception_by key params pdu.now.header))) (On named (what.Pdu pdu.now))) why) }
    {
        let (core, plan) = ReceiverCore::open(alloc, key, pdu, params)?;
        let core = TransactionCore::Receiver(core);
        Ok((core, TransactionPlan::Receiver(plan)))
    }

    // The reception that an event other than a Put opens.
    fn on(
        alloc: Global,
        side: &LaneSide,
        key: TxnKey,
        what: &What,
    ) -> Result<(TransactionCore, TransactionPlan), Refusal>
        requires { (named : KeyValue) × IsSome (opened_by side.now key (On named what.now)) × IsOfKey (On named what.now) key }
        ensures opened { (named : KeyValue) → IfOk result
            (λ opened. IsOpenedBy (opened_by side.now key (On named what.now)) (On named what.now) opened.0 opened.1) }
        ensures refused { (named : KeyValue) → IfErr result
            (λ why. IsWhy (first_answer (opened_by side.now key (On named what.now)) (On named what.now)) why) }
    {
        match (side, what) {
            (LaneSide::Receiving(params), What::Pdu(pdu)) => {
                TransactionCore::receive(alloc, key, pdu, *params)
            }
            _ => unreachable!(),
        }
    }

    /// Opens the transaction with this key by an event, which is also planned as its first. A Put is given this key.
    pub(crate) fn open(
        alloc: Global,
        side: &LaneSide,
        key: TxnKey,
        event: &Event,
    ) -> Result<(TransactionCore, TransactionPlan), Refusal>
        requires opens { IsSome (opened_by side.now key event.now) }
        requires of_key { IsOfKey event.now key }
        ensures opened { IfOk result
            (λ opened. IsOpenedBy (opened_by side.now key event.now) event.now opened.0 opened.1) }
        ensures refused { IfErr result (λ why. IsWhy (first_answer (opened_by side.now key event.now) event.now) why) }
    {
        match event {
            Event::Put(request, params) => match side {
                LaneSide::Sending { .. } => TransactionCore::put(alloc, key, request, *params),
                LaneSide::Receiving(_) => unreachable!(),
            },
            Event::On(_, what) => TransactionCore::on(alloc, side, key, what),
        }
    }
}
