//! Planning an event.
ghost use Rattle.std.specs.Prelude.{◌≡◌, IfOk};
ghost use Rattle.std.specs.Option.{option_to_list};

use crate::control::ControlBlock;
use crate::plan::{Plan, Remainder};
use crate::response::Response;
use crate::sender::SenderCore;
use crate::steps::{changes, next};
use pdu_values::Pdu;
use std::alloc::{AllocError, Global};
use txn_events::{Answer, Pdus, Refusal, TimerChanges, TimerContext, TimerOps, What, operations};

impl SenderCore {
    ghost use Rattle.std.specs.Prelude.{◌≡◌, ◌≤◌, IfOk, IfErr, List, Ok};
    ghost use Rattle.std.specs.Option.{option_to_list};
    ghost use Rattle.cfdp_types.specs.declared.limits.TheConstants.{FILE_OCTETS};
    ghost use Rattle.cfdp_types.specs.Steps as steps;
    ghost use Rattle.cfdp_types.specs.Params.{timer_length};
    ghost use Rattle.sender_table.specs.Sending.{Entry, happens, extent_of, state_of};
    ghost use Rattle.sender_table.specs.Answers.{answer_at};
    ghost use Rattle.txn_events.specs.Timers.{effects, stamp_of};
    ghost use Rattle.sender_core.specs.Core.{shown, sending_of, plan_answer, StandsAfter, HoldsResponse, IsPlanOf, IsWhy};

    // The plan of an event with its response, and with what then remains to be sent.
    fn plan_response(
        &self,
        event: &What,
        response: Response,
        remainder: Remainder,
    ) -> Result<Plan, AllocError>
        requires { extent_of (option_to_list response.pdu) ≤ FILE_OCTETS }
        ensures { IfOk result (λ plan. HoldsResponse self.now event.now response remainder plan) }
    {
        let next = next(&self.control, event, &response);
        let changes = changes(&next, event, response.arms);
        let context = TimerContext::new(self.key, &self.params, self.control.entries);
        let timers = operations(self.alloc, &context, changes, &self.control.armed)?;
        let pdus = listed(self.alloc, response.pdu)?;
        let armed = self.control.armed.after(changes, self.control.entries);
        Ok(Plan {
            next: ControlBlock { armed, ..next },
            remainder,
            answer: Answer {
                inds: response.inds,
                pdus,
                timers,
                deposit: None,
            },
        })
    }

    // Plans an event in the present state.
    fn plan_now(&self, event: &What) -> Result<Plan, Refusal>
        ensures planned { IfOk result (λ plan. IsPlanOf self.now plan (happens event.now)) }
        ensures refused { IfErr result
            (λ why. IsWhy (answer_at (sending_of self.now) (shown self.now) (happens event.now)) why) }
    {
        if let Some(refusal) = self.refusal_of(event) {
            return Err(refusal);
        }
        let response = self.response_to(event)?;
        let remainder = self.remainder(event)?;
        let plan = self.plan_response(event, response, remainder)?;
        Ok(plan)
    }

    /// Plans an event without changing the state. The plan holds all memory that the event needs. An error is the
    /// table's refusal, or NoMemory.
    pub fn plan(&self, event: &What) -> Result<Plan, Refusal>
        ensures planned { IfOk result (λ plan. IsPlanOf self.now plan (happens event.now)) }
        ensures accepted { (log : List Entry) → StandsAfter self.now log
            → IfOk result (λ plan. answer_at (sending_of self.now) (state_of (sending_of self.now) log)
            (happens event.now) ≡ Ok (plan_answer plan)) }
        ensures refused { (log : List Entry) → StandsAfter self.now log
            → IfErr result (λ why. IsWhy
            (answer_at (sending_of self.now) (state_of (sending_of self.now) log) (happens event.now)) why) }
    {
        self.plan_now(event)
    }
}

// The PDU as a list, if there is one.
fn listed(alloc: Global, pdu: Option<Pdu>) -> Result<Pdus, AllocError>
    ensures { IfOk result (λ pdus. pdus ≡ option_to_list pdu) }
{
    let mut pdus = Pdus::new(alloc);
    match pdu {
        None => Ok(pdus),
        Some(pdu) => {
            pdus.push(pdu)?;
            Ok(pdus)
        }
    }
}
