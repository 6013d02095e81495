//! Planning an event.
ghost use Rattle.std.specs.Prelude.{◌≡◌, IfOk};

use crate::plan::{Plan, Step};
use crate::receiver::ReceiverCore;
use cfdp_types::Deposit;
use pdu_values::{Body, FileData, Metadata};
use receiver_parts::control::ControlBlock;
use receiver_parts::file_change::FileChange;
use receiver_parts::response::Response;
use receiver_parts::steps::{changes, settle, with_event};
use std::alloc::{AllocError, Global};
use txn_events::{Answer, Refusal, TimerChanges, TimerContext, TimerOps, What, operations};

impl ReceiverCore {
    ghost use Rattle.std.specs.Prelude.{◌≡◌, IfOk, IfErr, OnOk, List, Ok, Some, None, false};
    ghost use Rattle.cfdp_types.specs.Steps as steps;
    ghost use Rattle.cfdp_types.specs.Params.{timer_length};
    ghost use Rattle.txn_events.specs.Timers.{effects, stamp_of};
    ghost use Rattle.txn_events.specs.declared.event.What.{What};
    ghost use Rattle.txn_events.specs.Events.{body_of_event};
    ghost use Rattle.pdu_values.specs.declared.pdu.Body.TheVariants as body;
    ghost use Rattle.receiver_table.specs.Reception.{Entry, state_of};
    ghost use Rattle.receiver_table.specs.Refusals.{is_too_large, is_body_too_large, refusal_at};
    ghost use Rattle.receiver_table.specs.Answers.{answer_at};
    ghost use Rattle.receiver_core.specs.PlanParts.{HoldsResponse, deposit_of};
    ghost use Rattle.receiver_parts.specs.FileChange.{FitsFile, HasRoom, IsReady};
    ghost use Rattle.receiver_core.specs.Core.{shown, reception_of, plan_answer, StandsAfter, IsChange, IsSame, IsPlanOf, IsWhy};

    // The change that Metadata brings: none unless it is the first.
    fn change_by_metadata(&self, metadata: &Metadata) -> Result<FileChange, AllocError>
        ensures { IfOk result (λ change. IsChange self.now (Some (body.Metadata metadata.now)) change) }
    {
        if self.metadata.is_some() {
            return Ok(FileChange::Nothing);
        }
        Ok(FileChange::Metadata(metadata.clone()?))
    }

    // The change that file data brings.
    fn change_by_file_data(&self, file_data: &FileData) -> Result<FileChange, AllocError>
        requires { is_body_too_large (body.FileData file_data.now) ≡ false }
        ensures { IfOk result (λ change. IsChange self.now (Some (body.FileData file_data.now)) change) }
    {
        let end = (file_data.offset + file_data.octets.as_slice().len() as u64) as u32;
        Ok(FileChange::NewSegment(self.file.segment(file_data, end)?))
    }

    // The change that a PDU brings; it holds copies of what it needs from the PDU.
    fn change_by(&self, body: &Body) -> Result<FileChange, AllocError>
        requires { is_body_too_large body.now ≡ false }
        ensures { IfOk result (λ change. IsChange self.now (Some body.now) change) }
    {
        match body {
            Body::Metadata(metadata) => self.change_by_metadata(metadata.get()),
            Body::FileData(file_data) => self.change_by_file_data(file_data),
            _ => Ok(FileChange::Nothing),
        }
    }

    // The change that an event brings.
    fn change_of(&self, event: &What) -> Result<FileChange, AllocError>
        requires { is_too_large event.now ≡ false }
        ensures { IfOk result (λ change. IsChange self.now (body_of_event event.now) change) }
    {
        match event {
            What::Pdu(pdu) => self.change_by(pdu.body()),
            _ => Ok(FileChange::Nothing),
        }
    }

    // Makes room for a change, so that it can be carried out without allocating.
    fn prepare(&mut self, change: &FileChange) -> Result<(), AllocError>
        requires { FitsFile self.old.file change.now }
        ensures same { IsSame self.old self.new }
        ensures fits { FitsFile self.new.file change.now }
        ensures room { OnOk result (HasRoom self.new.file change.now) }
    {
        match change {
            FileChange::Nothing | FileChange::Metadata(_) => Ok(()),
            FileChange::NewSegment(segment) => self.file.make_room(segment.pieces.len()),
        }
    }

    // The deposit, if the response hands the file over.
    fn deposit_of(&self, response: &Response) -> Option<Deposit>
        ensures { result ≡ deposit_of self.now response.now }
    {
        if response.deposit {
            Some(Deposit {
                key: self.key,
                stamp: self.control.entries,
            })
        } else {
            None
        }
    }

    // The plan of an event with its response. The step has the event's change and the control block with the event, and
    // becomes the step of the plan.
    fn plan_response(
        &self,
        event: &What,
        response: Response,
        mut step: Box<Step>,
    ) -> Result<Plan, AllocError>
        requires { IsReady self.now.file step.value.next step.value.change }
        ensures { IfOk result
            (λ plan. HoldsResponse self.now event.now step.value.next response step.value.change plan) }
    {
        let deposit = self.deposit_of(&response);
        let ended = response.inds.has_end();
        let pdus = self.pdus_of(&response, &step.next, &step.change, ended)?;
        let more = step.change.adds();
        settle(
            &mut step.next,
            &self.control,
            event,
            &response,
            deposit,
            more,
        );
        let changes = changes(&step.next, event, &response);
        let context = TimerContext::new(self.key, &self.params, self.control.entries);
        let timers = operations(self.alloc, &context, changes, &self.control.armed)?;
        step.next.armed = self.control.armed.after(changes, self.control.entries);
        Ok(Plan {
            step,
            answer: Answer {
                inds: response.inds,
                pdus,
                timers,
                deposit,
            },
        })
    }

    // The plan of an accepted event and its change, for which there is already room. What changes goes into the spare
    // memory, if there is any.
    fn plan_change(
        &self,
        event: &What,
        change: FileChange,
        spare: Option<Box<Step>>,
    ) -> Result<Plan, AllocError>
        requires taken { refusal_at (reception_of self.now) (shown self.now) event.now ≡ None }
        requires change { IsChange self.now (body_of_event event.now) change }
        requires room { HasRoom self.now.file change }
        ensures { IfOk result (λ plan. IsPlanOf self.now plan event.now) }
    {
        let current = with_event(&self.control, event, change.adds());
        let step = boxed(self.alloc, spare, current, change)?;
        let response = self.response_to(event, &step.next, &step.change)?;
        self.plan_response(event, response, step)
    }

    // Plans an event in the present state.
    fn plan_now(&mut self, event: &What) -> Result<Plan, Refusal>
        ensures same { IsSame self.old self.new }
        ensures planned { IfOk result (λ plan. IsPlanOf self.new plan event.now) }
        ensures refused { IfErr result (λ why. IsWhy (answer_at (reception_of self.old) (shown self.old) event.now) why) }
    {
        if let Some(refusal) = self.refusal_of(event) {
            return Err(refusal);
        }
        let change = self.change_of(event)?;
        self.prepare(&change)?;
        let spare = self.spare.take();
        let plan = self.plan_change(event, change, spare)?;
        Ok(plan)
    }

    /// Plans an event without changing the state. The plan holds all memory that the event needs, and room is made for
    /// the octets that it brings. An error is the table's refusal, or NoMemory.
    pub fn plan(&mut self, event: &What) -> Result<Plan, Refusal>
        ensures same { shown self.new ≡ shown self.old }
        ensures reception { reception_of self.new ≡ reception_of self.old }
        ensures others { (plan : Plan) (other : What) → IsPlanOf self.old plan other → IsPlanOf self.new plan other }
        ensures planned { IfOk result (λ plan. IsPlanOf self.new plan event.now) }
        ensures accepted { (log : List Entry) → StandsAfter self.old log
            → IfOk result (λ plan. answer_at (reception_of self.old) (state_of log) event.now ≡ Ok (plan_answer plan)) }
        ensures refused { (log : List Entry) → StandsAfter self.old log
            → IfErr result (λ why. IsWhy (answer_at (reception_of self.old) (state_of log) event.now) why) }
    {
        self.plan_now(event)
    }
}

// A step in the spare memory, or in new memory.
fn boxed(
    alloc: Global,
    spare: Option<Box<Step>>,
    next: ControlBlock,
    change: FileChange,
) -> Result<Box<Step>, AllocError>
    ensures { IfOk result (λ boxed. boxed.value ≡ record { next = next; change = change }) }
{
    match spare {
        None => Ok(Box::new(alloc, Step { next, change })?),
        Some(mut boxed) => {
            boxed.next = next;
            boxed.change = change;
            Ok(boxed)
        }
    }
}
