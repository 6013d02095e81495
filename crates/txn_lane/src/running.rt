ghost use Rattle.std.specs.Prelude.{◌≡◌, ◌++◌, ◌+◌, ◌≤◌, vec_len, vec_capacity};

use crate::copying::{Copies, copies_to_begin, copies_to_go_on};
use crate::handing::LaneAddress;
use crate::transaction::{TransactionCore, TransactionPlan};
use cfdp_types::TxnKey;
use indications::{Bundle, Indication};
use lane_table::{Done, LaneSide};
use txn_events::{Answer, Event, Refusal, What};

/// The transaction that a lane runs or ran last.
#[derive(Drop)]
pub(crate) struct Running {
    pub(crate) core: TransactionCore,
    /// The events that it has accepted, in order.
    pub(crate) journal: Vec<Event>,
    /// All its indications, in order.
    pub(crate) trace: Vec<Indication>,
}

/// An event that its end accepts, with all that is needed to carry it out.
#[derive(Drop)]
pub(crate) struct Step {
    pub(crate) event: Event,
    pub(crate) plan: TransactionPlan,
}

impl Running {
    ghost use Rattle.std.specs.Prelude.{◌≡◌, ◌∷◌, ◌++◌, [], IsSome, IfOk, IfErr};
    ghost use Rattle.txn_events.specs.declared.event.Event.TheVariants.{On};
    ghost use Rattle.lane_table.specs.Logs.{Log, IsOfKey, opened_by, first_answer, answered_behind, extended};
    ghost use Rattle.txn_lane.specs.Transactions.{StandsAfter, IsWhy, plan_answer};
    ghost use Rattle.txn_lane.specs.Handing.{bundle_for};
    ghost use Rattle.txn_lane.specs.RunningCode.{IsStepOf, IsGoing, IsOpenedBy, IsUnmoved, MayCommit, IsDoneBy};

    /// Opens the transaction with this key by an event, which is planned as its first step, with the bundle of its
    /// indications.
    pub(crate) fn open(
        address: LaneAddress,
        side: &LaneSide,
        key: TxnKey,
        event: &Event,
    ) -> Result<(Running, Step, Option<Bundle>), Refusal>
        requires opens { IsSome (opened_by side.now key event.now) }
        requires of_key { IsOfKey event.now key }
        ensures opened { IfOk result
            (λ opened. IsOpenedBy (opened_by side.now key event.now) event.now opened.0 opened.1) }
        ensures bundle { IfOk result
            (λ opened. opened.2 ≡ bundle_for address.user address.lane key (plan_answer opened.1.plan).inds) }
        ensures refused { IfErr result (λ why. IsWhy (first_answer (opened_by side.now key event.now) event.now) why) }
    {
        let (core, plan) = TransactionCore::open(address.alloc, side, key, event)?;
        let (copies, journal, trace) = copies_to_begin(address, key, event, &plan.answer().inds)?;
        let Copies { event, bundle } = copies;
        let running = Running {
            core,
            journal,
            trace,
        };
        Ok((running, Step { event, plan }, bundle))
    }

    /// Plans an event, with the bundle of its indications, and makes room for it.
    pub(crate) fn plan(
        &mut self,
        address: LaneAddress,
        key: TxnKey,
        what: &What,
    ) -> Result<(Step, Option<Bundle>), Refusal>
        requires goes { IsGoing self.old }
        ensures same { IsUnmoved self.old self.new }
        ensures planned { IfOk result (λ planned. IsStepOf self.new (On key what.now) planned.0) }
        ensures bundle { IfOk result
            (λ planned. planned.1 ≡ bundle_for address.user address.lane key (plan_answer planned.0.plan).inds) }
        ensures refused { (log : Log) → StandsAfter self.old.core log
            → IfErr result (λ why. IsWhy (answered_behind log (On key what.now)) why) }
    {
        let plan = self.core.plan(address.alloc, what)?;
        let inds = &plan.answer().inds;
        let copies = copies_to_go_on(address, key, what, inds, &mut self.journal, &mut self.trace)?;
        let Copies { event, bundle } = copies;
        Ok((Step { event, plan }, bundle))
    }

    /// Carries out a step that was planned in the present state, and returns its result. After an end, it frees what
    /// is no longer needed.
    pub(crate) fn commit(&mut self, key: TxnKey, step: Step) -> Done
        requires { MayCommit self.old step }
        ensures done { IsDoneBy key (plan_answer step.plan) result }
        ensures stands { (log : Log) → StandsAfter self.old.core log
            → StandsAfter self.new.core (extended log step.event (plan_answer step.plan)) }
        ensures journal { self.new.journal.items ≡ self.old.journal.items ++ step.event ∷ [] }
        ensures trace { self.new.trace.items ≡ self.old.trace.items ++ (plan_answer step.plan).inds }
    {
        let Step { event, plan } = step;
        let Answer {
            inds,
            pdus,
            timers,
            deposit,
        } = self.core.commit(plan);
        // Without memory for the glance, the lane keeps the whole transaction until the next one opens.
        let _settled = self.core.settle();
        self.journal.push_reserved(event);
        inds.append_to(&mut self.trace);
        Done {
            key,
            pdus,
            timers,
            deposit,
        }
    }
}
