//! Carrying out an event of a transaction: it is planned, its indications are offered, and only then does the
//! transaction change.
ghost use Rattle.std.specs.Prelude.{◌≡◌, IsSome, Ok, IfOk, IfErr, OnOk, OnErr};
ghost use Rattle.txn_events.specs.declared.answer.Answer.{Answer as AnswerValue};
ghost use Rattle.txn_events.specs.declared.event.Event.TheVariants.{On};
ghost use Rattle.lane_table.specs.Logs.{Log, IsOfKey, opened_by, first_answer, answered_behind};
ghost use Rattle.txn_lane.specs.Transactions.{StandsAfter, plan_answer};
ghost use Rattle.txn_lane.specs.Handing.{bundle_for, MayHandOver, IsHandedOver};
ghost use Rattle.txn_lane.specs.RunningCode.{IsGoing, IsUnmoved, GoesOn, MayCommit, IsDoneBy};
ghost use Rattle.txn_lane.specs.Stepping.{HasBegun, HasGoneOn, IsNotCarried, IsGivenBack};

use crate::handing::{LaneAddress, hand_over};
use crate::running::{Running, Step};
use cfdp_types::TxnKey;
use indications::{Bundle, Outlet};
use lane_table::{Done, LaneSide};
use txn_events::{Event, Refusal, What};

// Offers the bundle of a step, if there is one, and then carries out the step.
fn carry_out<O: Outlet>(
    running: &mut Running,
    key: TxnKey,
    step: Step,
    bundle: Option<Bundle>,
    outlet: &mut O,
) -> Result<Done, Refusal>
    requires may_commit { MayCommit running.old step }
    requires may_offer { MayHandOver (O.user outlet.old) (O.lane outlet.old) (O.stands outlet.old) bundle }
    ensures done { IfOk result (IsDoneBy key (plan_answer step.plan)) }
    ensures goes_on { OnOk result (GoesOn running.old running.new step.event (plan_answer step.plan)) }
    ensures offered { OnOk result (IsHandedOver O.takes outlet.old outlet.new bundle) }
    ensures full { IfErr result
        (λ why. IsGivenBack O.returns bundle running.old running.new outlet.old outlet.new why) }
{
    hand_over(outlet, bundle)?;
    Ok(running.commit(key, step))
}

/// Opens a transaction by an event.
pub(crate) fn start<O: Outlet>(
    address: LaneAddress,
    side: &LaneSide,
    key: TxnKey,
    event: &Event,
    outlet: &mut O,
) -> Result<(Running, Done), Refusal>
    requires opens { IsSome (opened_by side.now key event.now) }
    requires of_key { IsOfKey event.now key }
    requires may { (answer : AnswerValue) → first_answer (opened_by side.now key event.now) event.now ≡ Ok answer
        → MayHandOver (O.user outlet.old) (O.lane outlet.old) (O.stands outlet.old)
        (bundle_for address.user address.lane key answer.inds) }
    ensures begun { IfOk result (λ begun. HasBegun O.takes outlet.old outlet.new address.user address.lane key
        (opened_by side.now key event.now) event.now begun.0 begun.1) }
    ensures refused { IfErr result (λ why. IsNotCarried O.returns outlet.old outlet.new address.user address.lane key
        (first_answer (opened_by side.now key event.now) event.now) why) }
{
    let (mut running, step, bundle) = Running::open(address, side, key, event)?;
    let done = carry_out(&mut running, key, step, bundle, outlet)?;
    Ok((running, done))
}

/// Continues a transaction by an event.
pub(crate) fn advance<O: Outlet>(
    running: &mut Running,
    address: LaneAddress,
    key: TxnKey,
    what: &What,
    outlet: &mut O,
) -> Result<Done, Refusal>
    requires goes { IsGoing running.old }
    requires may { (log : Log) (answer : AnswerValue) → StandsAfter running.old.core log
        → answered_behind log (On key what.now) ≡ Ok answer
        → MayHandOver (O.user outlet.old) (O.lane outlet.old) (O.stands outlet.old)
        (bundle_for address.user address.lane key answer.inds) }
    ensures gone_on { IfOk result (λ done. HasGoneOn O.takes outlet.old outlet.new address.user address.lane key
        running.old running.new (On key what.now) done) }
    ensures same { OnErr result (IsUnmoved running.old running.new) }
    ensures refused { (log : Log) → StandsAfter running.old.core log → IfErr result
        (λ why. IsNotCarried O.returns outlet.old outlet.new address.user address.lane key
        (answered_behind log (On key what.now)) why) }
{
    let (step, bundle) = running.plan(address, key, what)?;
    carry_out(running, key, step, bundle, outlet)
}
