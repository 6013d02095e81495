//! The responses that the answers to several events share.
ghost use Rattle.std.specs.Prelude.{◌≡◌};
ghost use Rattle.receiver_table.specs.Answers as table;

use crate::receiver::ReceiverCore;
use cfdp_types::{Class, Condition, Delivery, EntityId, FileStatus, Handler, Role, TimerKind};
use indications::{Indication, Indications};
use pdu_values::Finished;
use receiver_parts::control::ControlBlock;
use receiver_parts::examine::Finding;
use receiver_parts::response::Response;
use std::alloc::AllocError;

impl ReceiverCore {
    ghost use Rattle.std.specs.Prelude.{◌≡◌, ℕ, IfOk, false, Option};
    ghost use Rattle.std.specs.Option.{option_to_list};
    ghost use Rattle.pdu_values.specs.declared.bodies.Metadata.{Metadata};
    ghost use Rattle.receiver_table.specs.Answers as table;
    ghost use Rattle.receiver_table.specs.Answers.{tells, ◌and_then◌};
    ghost use Rattle.receiver_parts.specs.ControlBlock.{state_from};
    ghost use Rattle.receiver_parts.specs.Response.{IsResponse};
    ghost use Rattle.receiver_parts.specs.Finding.{found_response};
    ghost use Rattle.receiver_core.specs.Core.{reception_of};

    // The fault location of a Finished PDU: this entity, for every fault but an unsupported checksum type.
    fn location_of(&self, condition: Condition) -> Option<EntityId>
        ensures { result ≡ table.location_of (reception_of self.now) condition }
    {
        if condition == Condition::NO_ERROR || condition == Condition::UNSUPPORTED_CHECKSUM_TYPE {
            None
        } else {
            Some(self.params.local())
        }
    }

    /// The end of the delivery, after earlier indications of the same step.
    pub(crate) fn finish_response(
        &self,
        inds: Indications,
        current: &ControlBlock,
        condition: Condition,
        delivery: Delivery,
        status: FileStatus,
    ) -> Result<Response, AllocError>
        ensures response { (m : Option Metadata) (octets : ℕ → Option ℕ) → IfOk result
            (λ response. IsResponse response (tells inds and_then table.finish_response (reception_of self.now)
            (state_from current.now m octets) condition delivery status)) }
        ensures plain { IfOk result (λ response. response.resumes ≡ false) }
    {
        let mut response = Response::of(inds);
        let finished = Finished {
            condition,
            delivery,
            status,
            location: self.location_of(condition),
        };
        match self.header.class {
            Class::One => {
                response.inds.push(Indication::TransactionFinished {
                    condition,
                    delivery,
                    status,
                })?;
                if current.asks_closure() {
                    response.finished = Some(finished);
                }
            }
            Class::Two => {
                response.finished = Some(finished);
                response.arms = Some(TimerKind::Ack);
            }
        }
        Ok(response)
    }

    /// A fault whose handler is Cancel.
    pub(crate) fn cancel_response(
        &self,
        inds: Indications,
        current: &ControlBlock,
        condition: Condition,
    ) -> Result<Response, AllocError>
        ensures response { (m : Option Metadata) (octets : ℕ → Option ℕ) → IfOk result
            (λ response. IsResponse response (tells inds and_then table.cancel_response (reception_of self.now)
            (state_from current.now m octets) condition)) }
        ensures plain { IfOk result (λ response. response.resumes ≡ false) }
    {
        self.finish_response(
            inds,
            current,
            condition,
            Delivery::Incomplete,
            status_of(condition),
        )
    }

    fn handler_of(&self, condition: Condition) -> Handler
        ensures { result ≡ table.handler_of (reception_of self.now) condition }
    {
        self.params
            .tables()
            .of(role_of(self.header.class))
            .action(condition)
    }

    /// A fault, answered by its handler, after earlier indications of the same step.
    pub(crate) fn fault_response(
        &self,
        inds: Indications,
        current: &ControlBlock,
        arms: Option<TimerKind>,
        condition: Condition,
    ) -> Result<Response, AllocError>
        ensures response { (m : Option Metadata) (octets : ℕ → Option ℕ) → IfOk result
            (λ response. IsResponse response (tells inds and_then table.fault_response (reception_of self.now)
            (state_from current.now m octets) (option_to_list arms) condition)) }
        ensures plain { IfOk result (λ response. response.resumes ≡ false) }
    {
        let progress = current.progress;
        match self.handler_of(condition) {
            Handler::Cancel => self.cancel_response(inds, current, condition),
            Handler::Suspend => Response::telling_more(inds, Indication::Suspended { condition }),
            Handler::Ignore => {
                let told = Indication::Fault {
                    condition,
                    progress,
                };
                let mut response = Response::telling_more(inds, told)?;
                response.arms = arms;
                Ok(response)
            }
            Handler::Abandon => Response::telling_more(
                inds,
                Indication::Abandoned {
                    condition,
                    progress,
                },
            ),
        }
    }

    // Waits for the rest of the file, with the timer of the class.
    fn waits_for_rest(&self, inds: Indications, current: &ControlBlock) -> Response
        ensures response { (m : Option Metadata) (octets : ℕ → Option ℕ) → IsResponse result
            (tells inds and_then table.waits_for_rest (reception_of self.now) (state_from current.now m octets)) }
        ensures plain { result.resumes ≡ false }
    {
        let mut response = Response::of(inds);
        match self.header.class {
            Class::One => {
                if current.armed.check.is_none() {
                    response.arms = Some(TimerKind::Check);
                }
            }
            Class::Two => {
                if current.armed.nak.is_none() {
                    response.nak = true;
                    response.arms = Some(TimerKind::Nak);
                }
            }
        }
        response
    }

    /// The response to a finding, after earlier indications of the same step.
    pub(crate) fn answers_finding(
        &self,
        inds: Indications,
        current: &ControlBlock,
        finding: Finding,
    ) -> Result<Response, AllocError>
        ensures response { (m : Option Metadata) (octets : ℕ → Option ℕ) → IfOk result
            (λ response. IsResponse response
            (tells inds and_then found_response (reception_of self.now) (state_from current.now m octets) finding)) }
        ensures plain { IfOk result (λ response. response.resumes ≡ false) }
    {
        match finding {
            Finding::Nothing => Ok(Response::of(inds)),
            Finding::Faulty(condition) => self.fault_response(inds, current, None, condition),
            Finding::Whole => {
                let mut response = Response::of(inds);
                response.deposit = true;
                Ok(response)
            }
            Finding::Waits => Ok(self.waits_for_rest(inds, current)),
        }
    }
}

// The role whose fault table is used.
fn role_of(class: Class) -> Role
    ensures { result ≡ table.role_of class }
{
    match class {
        Class::One => Role::RecvOne,
        Class::Two => Role::RecvTwo,
    }
}

// The file status where a fault ends the reception.
fn status_of(condition: Condition) -> FileStatus
    ensures { result ≡ table.status_of condition }
{
    if condition == Condition::FILESTORE_REJECTION {
        FileStatus::Rejected
    } else {
        FileStatus::Discarded
    }
}
