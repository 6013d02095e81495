//! A reception's answers, event by event.
ghost use Rattle.std.specs.Prelude.{◌≡◌, ◌<◌, IfOk, All, map};
ghost use Rattle.receiver_table.specs.Answers.{segment_told};

use crate::receiver::ReceiverCore;
use cfdp_types::{Boxed, ChecksumType, Class, Condition, Delivery, FileStatus, TimerKind};
use gap_list::Run;
use indications::{Indication, Indications, ReceivedMetadata};
use pdu_values::{Body, Eof, Metadata, Prompt};
use receiver_parts::control::ControlBlock;
use receiver_parts::examine::look;
use receiver_parts::file_change::FileChange;
use receiver_parts::response::Response;
use std::alloc::{AllocError, Global};
use txn_events::What;

impl ReceiverCore {
    ghost use Rattle.std.specs.Prelude.{◌≡◌, ℕ, ◌∷◌, [], ◌<◌, IfOk, All, true, false, map, is_some, if◌then◌else◌, Option, Some};
    ghost use Rattle.std.specs.Option.{option_map};
    ghost use Rattle.cfdp_types.specs.Condition as condition;
    ghost use Rattle.txn_events.specs.declared.event.What.TheVariants as what;
    ghost use Rattle.indications.specs.declared.indication.Indication.TheVariants as told;
    ghost use Rattle.txn_events.specs.Events.{body_of_event};
    ghost use Rattle.receiver_table.specs.Reception.{added_runs, file_data_of};
    ghost use Rattle.receiver_table.specs.Answers as table;
    ghost use Rattle.receiver_table.specs.Answers.{tells, nothing, segment_told, ◌and_then◌};
    ghost use Rattle.receiver_parts.specs.Response.{IsResponse};
    ghost use Rattle.receiver_parts.specs.ControlBlock.{state_from};
    ghost use Rattle.pdu_values.specs.declared.bodies.Metadata.{Metadata};
    ghost use Rattle.receiver_parts.specs.FileChange.{metadata_after, runs_in, IsReady};
    ghost use Rattle.receiver_core.specs.Core.{shown, reception_of, now_state, is_request};
    ghost use Rattle.cfdp_types.specs.declared.names.Delivery.TheVariants.{Incomplete};
    ghost use Rattle.cfdp_types.specs.declared.names.FileStatus.TheVariants.{Discarded};

    // The file's checksum type after a change; None before the Metadata is received.
    fn checksum_type_after(&self, change: &FileChange) -> Option<ChecksumType>
        ensures { result ≡ option_map (λ m. m.checksum_type) (metadata_after self.now.metadata change.now) }
    {
        match change {
            FileChange::Metadata(metadata) => Some(metadata.checksum_type),
            FileChange::Nothing | FileChange::NewSegment(_) => match &self.metadata {
                None => None,
                Some(metadata) => Some(metadata.checksum_type),
            },
        }
    }

    // The completion check, which follows earlier indications of the same step.
    fn examine(
        &self,
        inds: Indications,
        current: &ControlBlock,
        change: &FileChange,
    ) -> Result<Response, AllocError>
        requires { IsReady self.now.file current.now change.now }
        ensures response { IfOk result (λ response. IsResponse response
            (tells inds and_then table.examines (reception_of self.now) (now_state self.now current.now change.now))) }
        ensures plain { IfOk result (λ response. response.resumes ≡ false) }
    {
        if current.is_suspended() {
            return Ok(Response::of(inds));
        }
        let finding = look(
            self.checksum_type_after(change),
            current,
            &self.file,
            change,
        );
        self.answers_finding(inds, current, finding)
    }

    // The indication of Metadata, if it is the first.
    fn metadata_told(&self, metadata: &Metadata) -> Result<Indications, AllocError>
        ensures { IfOk result (λ inds. inds ≡ (if is_some self.now.metadata then []
            else table.metadata_recv self.now.key.source metadata.now ∷ [])) }
    {
        let mut inds = Indications::new(self.alloc);
        if self.metadata.is_none() {
            let received = ReceivedMetadata {
                source: self.key.source,
                size: metadata.size,
                source_name: metadata.source_name.copy()?,
                destination_name: metadata.destination_name.copy()?,
                messages: metadata.messages.copy()?,
            };
            inds.push(Indication::MetadataRecv(Boxed::new(self.alloc, received)?))?;
        }
        Ok(inds)
    }

    fn on_metadata(
        &self,
        metadata: &Metadata,
        current: &ControlBlock,
        change: &FileChange,
    ) -> Result<Response, AllocError>
        requires { IsReady self.now.file current.now change.now }
        ensures { IfOk result (λ response. IsResponse response (table.on_metadata (reception_of self.now)
            (shown self.now) (now_state self.now current.now change.now) metadata.now)) }
    {
        let inds = self.metadata_told(metadata)?;
        self.examine(inds, current, change)
    }

    // The indications of the new octets in a change.
    fn part_told(&self, change: &FileChange) -> Result<Indications, AllocError>
        requires { All (λ run. run.start < run.end) (runs_in change.now) }
        ensures { IfOk result (λ inds. inds ≡ map segment_told (runs_in change.now)) }
    {
        match change {
            FileChange::NewSegment(segment) => segments_told(self.alloc, segment.runs.as_slice()),
            FileChange::Nothing | FileChange::Metadata(_) => Ok(Indications::new(self.alloc)),
        }
    }

    // Indicates each run of new octets, and examines the file.
    fn on_file_data(
        &self,
        current: &ControlBlock,
        change: &FileChange,
    ) -> Result<Response, AllocError>
        requires ready { IsReady self.now.file current.now change.now }
        requires filled { All (λ run. run.start < run.end) (runs_in change.now) }
        ensures { IfOk result (λ response. IsResponse response (tells (map segment_told (runs_in change.now)) and_then
            table.examines (reception_of self.now) (now_state self.now current.now change.now))) }
    {
        let inds = self.part_told(change)?;
        self.examine(inds, current, change)
    }

    // Class 2 acknowledges an EOF.
    fn acknowledges(&self, response: &mut Response, condition: Condition)
        ensures { (wanted : table.Response) → IsResponse response.old wanted → IsResponse response.new
            (table.acknowledges (reception_of self.now) condition and_then wanted) }
    {
        if self.header.class == Class::Two {
            response.ack = Some(condition);
        }
    }

    // The indication of an EOF without an error, if it is the first.
    fn eof_told(&self) -> Result<Indications, AllocError>
        ensures { IfOk result (λ inds. inds ≡ (if is_some self.now.control.eof then [] else told.EofRecv ∷ [])) }
    {
        let mut inds = Indications::new(self.alloc);
        if self.control.eof.is_none() {
            inds.push(Indication::EofRecv)?;
        }
        Ok(inds)
    }

    // Answers an EOF without an error, outside the closing phase.
    fn on_good_eof(
        &self,
        current: &ControlBlock,
        change: &FileChange,
    ) -> Result<Response, AllocError>
        requires { IsReady self.now.file current.now change.now }
        ensures { IfOk result (λ response. IsResponse response (tells
            (if is_some self.now.control.eof then [] else told.EofRecv ∷ []) and_then table.acknowledges
            (reception_of self.now) condition.no_error and_then table.examines (reception_of self.now)
            (now_state self.now current.now change.now))) }
    {
        let inds = self.eof_told()?;
        let mut response = self.examine(inds, current, change)?;
        if self.header.class == Class::Two {
            response.ack = Some(Condition::NO_ERROR);
        }
        Ok(response)
    }

    // Answers an EOF with an error, which ends the reception.
    fn on_bad_eof(&self, condition: Condition) -> Result<Response, AllocError>
        ensures { IfOk result (λ response. IsResponse response (tells (told.TransactionFinished condition Incomplete
            Discarded ∷ []) and_then table.acknowledges (reception_of self.now) condition)) }
    {
        let told = Indication::TransactionFinished {
            condition,
            delivery: Delivery::Incomplete,
            status: FileStatus::Discarded,
        };
        let mut response = Response::telling(self.alloc, told)?;
        self.acknowledges(&mut response, condition);
        Ok(response)
    }

    fn on_eof(
        &self,
        eof: Eof,
        current: &ControlBlock,
        change: &FileChange,
    ) -> Result<Response, AllocError>
        requires { IsReady self.now.file current.now change.now }
        ensures { IfOk result (λ response. IsResponse response
            (table.on_eof (reception_of self.now) (shown self.now) (now_state self.now current.now change.now) eof)) }
    {
        if self.control.is_closing() {
            let mut response = Response::of(Indications::new(self.alloc));
            self.acknowledges(&mut response, eof.condition);
            Ok(response)
        } else if eof.condition == Condition::NO_ERROR {
            self.on_good_eof(current, change)
        } else {
            self.on_bad_eof(eof.condition)
        }
    }

    // Answers a Prompt: a NAK, unless the reception is suspended, or a Keep Alive.
    fn on_prompt(&self, prompt: Prompt, current: &ControlBlock) -> Response
        ensures { (m : Option Metadata) (octets : ℕ → Option ℕ) → IsResponse result
            (table.on_prompt (state_from current.now m octets) prompt) }
    {
        let mut response = Response::of(Indications::new(self.alloc));
        match prompt {
            Prompt::Nak => response.nak = !current.is_suspended(),
            Prompt::KeepAlive => response.keep_alive = true,
        }
        response
    }

    // Ends the transaction with the values of the Finished PDU.
    fn ends_as_finished(&self) -> Result<Response, AllocError>
        ensures { IfOk result (λ response. IsResponse response (table.ends_as_finished (shown self.now))) }
    {
        match self.control.finished {
            None => Ok(Response::of(Indications::new(self.alloc))),
            Some(finished) => Response::telling(
                self.alloc,
                Indication::TransactionFinished {
                    condition: finished.condition,
                    delivery: finished.delivery,
                    status: finished.status,
                },
            ),
        }
    }

    fn on_body(
        &self,
        body: &Body,
        current: &ControlBlock,
        change: &FileChange,
    ) -> Result<Response, AllocError>
        requires ready { IsReady self.now.file current.now change.now }
        requires filled { All (λ run. run.start < run.end) (runs_in change.now) }
        requires runs { runs_in change.now ≡ added_runs (shown self.now) (file_data_of (Some body.now)) }
        ensures { IfOk result (λ response. IsResponse response (table.on_body (reception_of self.now) (shown self.now)
            (now_state self.now current.now change.now) body.now)) }
    {
        match body {
            Body::Metadata(metadata) => self.on_metadata(metadata.get(), current, change),
            Body::FileData(_) => self.on_file_data(current, change),
            Body::Eof(eof) => self.on_eof(*eof, current, change),
            Body::Prompt(prompt) => Ok(self.on_prompt(*prompt, current)),
            Body::Ack(_) => self.ends_as_finished(),
            Body::Finished(_) | Body::Nak(_) | Body::KeepAlive(_) => {
                Ok(Response::of(Indications::new(self.alloc)))
            }
        }
    }

    // Nak expired: another NAK, and at the limit a fault.
    fn on_nak_timer(&self, current: &ControlBlock) -> Result<Response, AllocError>
        ensures { (m : Option Metadata) (octets : ℕ → Option ℕ) → IfOk result (λ response. IsResponse response
            (table.on_nak_timer (reception_of self.now) (shown self.now) (state_from current.now m octets))) }
    {
        let inds = Indications::new(self.alloc);
        if self.control.tries.nak + 1 < u32::from(self.params.limits().nak) {
            let mut response = Response::of(inds);
            response.nak = true;
            response.arms = Some(TimerKind::Nak);
            Ok(response)
        } else {
            self.fault_response(inds, current, Some(TimerKind::Nak), Condition::NAK_LIMIT)
        }
    }

    // Check expired: nothing is sent, and at the limit a fault.
    fn on_check_timer(&self, current: &ControlBlock) -> Result<Response, AllocError>
        ensures { (m : Option Metadata) (octets : ℕ → Option ℕ) → IfOk result (λ response. IsResponse response
            (table.on_check_timer (reception_of self.now) (shown self.now) (state_from current.now m octets))) }
    {
        let inds = Indications::new(self.alloc);
        if self.control.tries.check + 1 < u32::from(self.params.limits().check) {
            let mut response = Response::of(inds);
            response.arms = Some(TimerKind::Check);
            Ok(response)
        } else {
            self.fault_response(
                inds,
                current,
                Some(TimerKind::Check),
                Condition::CHECK_LIMIT,
            )
        }
    }

    // Ack expired: the Finished PDU again, and at the limit the end.
    fn on_ack_timer(&self) -> Result<Response, AllocError>
        ensures { IfOk result
            (λ response. IsResponse response (table.on_ack_timer (reception_of self.now) (shown self.now))) }
    {
        if self.control.tries.ack + 1 < u32::from(self.params.limits().ack) {
            let mut response = Response::of(Indications::new(self.alloc));
            response.finished = self.control.finished;
            response.arms = Some(TimerKind::Ack);
            Ok(response)
        } else {
            self.ends_as_finished()
        }
    }

    fn on_timer(&self, kind: TimerKind, current: &ControlBlock) -> Result<Response, AllocError>
        ensures { (m : Option Metadata) (octets : ℕ → Option ℕ) → IfOk result (λ response. IsResponse response
            (table.on_timer (reception_of self.now) (shown self.now) (state_from current.now m octets) kind)) }
    {
        match kind {
            TimerKind::Nak => self.on_nak_timer(current),
            TimerKind::Check => self.on_check_timer(current),
            TimerKind::Ack => self.on_ack_timer(),
            TimerKind::Inactivity => self.fault_response(
                Indications::new(self.alloc),
                current,
                Some(TimerKind::Inactivity),
                Condition::INACTIVITY,
            ),
        }
    }

    // The file store keeps the file, or rejects it.
    fn on_stored(&self, current: &ControlBlock, kept: bool) -> Result<Response, AllocError>
        ensures { (m : Option Metadata) (octets : ℕ → Option ℕ) → IfOk result (λ response. IsResponse response
            (table.on_stored (reception_of self.now) (state_from current.now m octets) kept)) }
    {
        let inds = Indications::new(self.alloc);
        if kept {
            self.finish_response(
                inds,
                current,
                Condition::NO_ERROR,
                Delivery::Complete,
                FileStatus::Retained,
            )
        } else {
            self.fault_response(inds, current, None, Condition::FILESTORE_REJECTION)
        }
    }

    // The reception is resumed, and examines what it received meanwhile.
    fn on_resume(&self, current: &ControlBlock, change: &FileChange) -> Result<Response, AllocError>
        requires { IsReady self.now.file current.now change.now }
        ensures { IfOk result (λ response. IsResponse response
            (table.on_resume (reception_of self.now) (now_state self.now current.now change.now))) }
    {
        let mut inds = Indications::new(self.alloc);
        inds.push(Indication::Resumed {
            progress: current.progress,
        })?;
        let active = ControlBlock {
            paused: false,
            ..*current
        };
        let mut response = self.examine(inds, &active, change)?;
        response.resumes = true;
        Ok(response)
    }

    // Answers the user and the file store: events that are neither a PDU nor an expiration.
    fn on_request(
        &self,
        event: &What,
        current: &ControlBlock,
        change: &FileChange,
    ) -> Result<Response, AllocError>
        requires { IsReady self.now.file current.now change.now }
        ensures { is_request event.now ≡ true → IfOk result (λ response. IsResponse response (table.response_to
            (reception_of self.now) (shown self.now) (now_state self.now current.now change.now) event.now)) }
    {
        let progress = current.progress;
        let inds = Indications::new(self.alloc);
        match event {
            What::Stored(_, kept) => self.on_stored(current, *kept),
            What::Cancel => self.cancel_response(inds, current, Condition::CANCEL_REQUEST),
            What::Suspend => {
                let condition = Condition::SUSPEND_REQUEST;
                Response::telling_more(inds, Indication::Suspended { condition })
            }
            What::Resume => self.on_resume(current, change),
            What::Report => {
                let phase = current.phase();
                Response::telling_more(inds, Indication::Report { phase, progress })
            }
            What::Abandon => {
                let condition = Condition::CANCEL_REQUEST;
                let told = Indication::Abandoned {
                    condition,
                    progress,
                };
                Response::telling_more(inds, told)
            }
            What::Pump | What::Pdu(_) | What::Timer(_, _) => Ok(Response::of(inds)),
        }
    }

    /// The response to an event, which brings `change`, in the present state; `current` is the control block with the
    /// event.
    pub(crate) fn response_to(
        &self,
        event: &What,
        current: &ControlBlock,
        change: &FileChange,
    ) -> Result<Response, AllocError>
        requires ready { IsReady self.now.file current.now change.now }
        requires filled { All (λ run. run.start < run.end) (runs_in change.now) }
        requires runs { runs_in change.now ≡ added_runs (shown self.now) (file_data_of (body_of_event event.now)) }
        ensures { IfOk result (λ response. IsResponse response (table.response_to (reception_of self.now)
            (shown self.now) (now_state self.now current.now change.now) event.now)) }
    {
        match event {
            What::Pdu(pdu) => self.on_body(pdu.body(), current, change),
            What::Timer(kind, _) => self.on_timer(*kind, current),
            _ => self.on_request(event, current, change),
        }
    }
}

// The indications of these runs of new octets.
fn segments_told(alloc: Global, runs: &[Run]) -> Result<Indications, AllocError>
    requires { All (λ run. run.start < run.end) runs.now }
    ensures { IfOk result (λ inds. inds ≡ map segment_told runs.now) }
{
    let mut inds = Indications::new(alloc);
    for run in runs {
        inds.push(Indication::FileSegmentRecv {
            offset: run.start,
            length: run.end - run.start,
        })?;
    }
    Ok(inds)
}
