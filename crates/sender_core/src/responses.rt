//! The responses of a sender to its events.
ghost use Rattle.std.specs.Prelude.{◌≡◌, IfOk};

use crate::pdus;
use crate::response::Response;
use crate::sender::SenderCore;
use cfdp_types::{Checksum, Class, Condition, Delivery, FileStatus, Handler, TimerKind};
use gap_list::Run;
use indications::{Indication, Indications};
use modular_sum::sum_of;
use pdu_values::{Ack, Body, Eof, Finished, Pdu};
use std::alloc::AllocError;
use txn_events::What;

impl SenderCore {
    ghost use Rattle.sender_table.specs.Refusals.{runs_to_send};
    ghost use Rattle.cfdp_types.specs.declared.limits.TheConstants.{SEGMENT_OCTETS_MOST};
    ghost use Rattle.std.specs.Prelude.{◌≡◌, ◌≤◌, ◌<◌, ◌^◌, IfOk, ◌-◌, min, [], ◌∷◌, None, Some, length, slice_get};
    ghost use Rattle.txn_events.specs.declared.event.What.TheVariants as what;
    ghost use Rattle.pdu_values.specs.declared.pdu.Body.TheVariants as body;
    ghost use Rattle.indications.specs.declared.indication.Indication.TheVariants as told;
    ghost use Rattle.sender_table.specs.Sending.{happens};
    ghost use Rattle.std.specs.Option.{option_to_list};
    ghost use Rattle.sender_core.specs.Core.{shown, sending_of, IsResponse, eof_again};
    ghost use Rattle.sender_table.specs.Answers.{cancel_eof, whole_eof, sum_by, cancel_response, fault_response, sends_eof, sends_next, on_pump, on_ack, on_body, on_ack_timer, on_check_timer, on_timer, waiting_timer, response_to, ends_unreported};

    // Ends the transaction without a report from the receiver on the file.
    fn ends_unreported(&self, condition: Condition) -> Result<Response, AllocError>
        ensures { IfOk result (λ response. IsResponse (sending_of self.now) response (ends_unreported condition)) }
    {
        Response::telling(self.alloc, unreported(condition))
    }

    // The checksum of some octets of the file, 0 for the null checksum.
    fn checksum_of(&self, octets: &[u8]) -> u32
        ensures { result ≡ sum_by self.now.params.checksum octets.now }
    {
        match self.params.checksum() {
            Checksum::Modular => sum_of(octets),
            Checksum::Null => 0,
        }
    }

    // The EOF of the whole file.
    fn whole_eof(&self) -> Eof
        ensures eof { result ≡ whole_eof (sending_of self.now) }
        ensures size { result.size < 2 ^ 32 }
    {
        let file = self.request.file().as_slice();
        Eof {
            condition: Condition::NO_ERROR,
            checksum: self.checksum_of(file),
            size: file.len() as u64,
            location: None,
        }
    }

    // The EOF that cancels: its checksum and size are those of the file up to the greatest offset sent.
    fn cancel_eof(&self, condition: Condition) -> Eof
        ensures eof { result ≡ cancel_eof (sending_of self.now) (shown self.now) condition }
        ensures size { result.size < 2 ^ 32 }
    {
        let progress = self.control.progress;
        let prefix = &self.request.file().as_slice()[..progress as usize];
        Eof {
            condition,
            checksum: self.checksum_of(prefix),
            size: u64::from(progress),
            location: Some(self.params.local()),
        }
    }

    // Cancels the transaction: class 1 ends at once, class 2 waits for the ACK of its EOF.
    fn cancel_response(&self, condition: Condition) -> Result<Response, AllocError>
        ensures { IfOk result (λ response. IsResponse (sending_of self.now) response
            (cancel_response (sending_of self.now) (shown self.now) condition)) }
    {
        let pdu = Pdu::eof(self.header, self.cancel_eof(condition));
        let mut inds = Indications::new(self.alloc);
        match self.request.class() {
            Class::One => {
                inds.push(unreported(condition))?;
                Ok(Response {
                    inds,
                    pdu: Some(pdu),
                    arms: None,
                })
            }
            Class::Two => Ok(Response {
                inds,
                pdu: Some(pdu),
                arms: Some(TimerKind::Ack),
            }),
        }
    }

    // A fault, answered by its handler.
    fn fault_response(&self, kind: TimerKind, condition: Condition) -> Result<Response, AllocError>
        ensures { IfOk result (λ response. IsResponse (sending_of self.now) response
            (fault_response (sending_of self.now) (shown self.now) kind condition)) }
    {
        let progress = self.control.progress;
        match self.params.tables().send.action(condition) {
            Handler::Cancel => self.cancel_response(condition),
            Handler::Suspend => Response::telling(self.alloc, Indication::Suspended { condition }),
            Handler::Ignore => {
                let told = Indication::Fault {
                    condition,
                    progress,
                };
                let mut response = Response::telling(self.alloc, told)?;
                response.arms = Some(kind);
                Ok(response)
            }
            Handler::Abandon => {
                let told = Indication::Abandoned {
                    condition,
                    progress,
                };
                Response::telling(self.alloc, told)
            }
        }
    }

    // Sends the EOF, once all else was sent.
    fn sends_eof(&self) -> Result<Response, AllocError>
        ensures { IfOk result
            (λ response. IsResponse (sending_of self.now) response (sends_eof (sending_of self.now))) }
    {
        let pdu = Pdu::eof(self.header, self.whole_eof());
        let mut inds = Indications::new(self.alloc);
        inds.push(Indication::EofSent)?;
        let arms = match self.request.class() {
            Class::One => {
                if self.request.closure() {
                    Some(TimerKind::Check)
                } else {
                    inds.push(unreported(Condition::NO_ERROR))?;
                    None
                }
            }
            Class::Two => Some(TimerKind::Ack),
        };
        Ok(Response {
            inds,
            pdu: Some(pdu),
            arms,
        })
    }

    // The size of the file in octets.
    pub(crate) fn size(&self) -> u32
        ensures { result ≡ length self.now.request.file }
    {
        self.request.file().as_slice().len() as u32
    }

    // The lowest run that remains to be sent.
    pub(crate) fn first_run(&self) -> Option<Run>
        ensures { result ≡ slice_get (runs_to_send (sending_of self.now) (shown self.now)) 0 }
    {
        self.remaining.first(self.size())
    }

    // How many octets of the lowest run to send: at most as many as a segment may hold.
    pub(crate) fn segment_of(&self, run: Run) -> u32
        ensures segment { result ≡ min self.now.params.segment_octets (run.end - run.start) }
        ensures most { result ≤ SEGMENT_OCTETS_MOST }
    {
        u32::from(self.params.segment_octets()).min(run.end.saturating_sub(run.start))
    }

    // Sends what remains of the file, then the EOF.
    fn sends_next(&self) -> Result<Response, AllocError>
        ensures { IfOk result (λ response. IsResponse (sending_of self.now) response
            (sends_next (sending_of self.now) (runs_to_send (sending_of self.now) (shown self.now)))) }
    {
        match self.first_run() {
            None => self.sends_eof(),
            Some(run) => {
                let pdu = pdus::file_data(
                    self.header,
                    self.request.file(),
                    run.start,
                    self.segment_of(run),
                )?;
                Ok(Response::sending(self.alloc, pdu))
            }
        }
    }

    // Sends the Metadata first, then the rest.
    fn on_pump(&self) -> Result<Response, AllocError>
        ensures { IfOk result
            (λ response. IsResponse (sending_of self.now) response (on_pump (sending_of self.now) (shown self.now))) }
    {
        if self.control.metadata_remains {
            let checksum = self.params.checksum();
            let pdu = pdus::metadata(self.alloc, self.header, &self.request, checksum)?;
            Ok(Response::sending(self.alloc, pdu))
        } else {
            self.sends_next()
        }
    }

    // Answers an ACK: that of an EOF that cancels ends the transaction.
    fn on_ack(&self, ack: Ack) -> Result<Response, AllocError>
        ensures { IfOk result (λ response. IsResponse (sending_of self.now) response (on_ack (shown self.now) ack)) }
    {
        if self.control.is_closing() {
            self.ends_unreported(ack.condition)
        } else {
            Ok(Response::nothing(self.alloc))
        }
    }

    fn on_body(&self, body: &Body) -> Result<Response, AllocError>
        ensures { IfOk result
            (λ response. IsResponse (sending_of self.now) response
            (on_body (sending_of self.now) (shown self.now) body.now)) }
    {
        match body {
            Body::Ack(ack) => self.on_ack(*ack),
            Body::Finished(finished) => self.on_finished(*finished),
            _ => Ok(Response::nothing(self.alloc)),
        }
    }

    // Answers a Finished: its values are indicated, and class 2 acknowledges it.
    fn on_finished(&self, finished: Finished) -> Result<Response, AllocError>
        ensures { IfOk result (λ response. IsResponse (sending_of self.now) response
            (on_body (sending_of self.now) (shown self.now) (body.Finished finished))) }
    {
        let told = Indication::TransactionFinished {
            condition: finished.condition,
            delivery: finished.delivery,
            status: finished.status,
        };
        let mut response = Response::telling(self.alloc, told)?;
        response.pdu = match self.request.class() {
            Class::One => None,
            Class::Two => Some(pdus::ack(self.header, finished.condition)),
        };
        Ok(response)
    }

    // Ack expired: the EOF again; at the limit a fault, or in the closing phase the end.
    fn on_ack_timer(&self) -> Result<Response, AllocError>
        ensures { IfOk result (λ response. IsResponse (sending_of self.now) response
            (on_ack_timer (sending_of self.now) (shown self.now) (shown self.now))) }
    {
        if self.control.tries.ack + 1 < u32::from(self.params.limits().ack) {
            Ok(self.sends_eof_again())
        } else if self.control.is_closing() {
            self.ends_unreported(self.control.condition())
        } else {
            self.fault_response(TimerKind::Ack, Condition::POSITIVE_ACK_LIMIT)
        }
    }

    fn sends_eof_again(&self) -> Response
        ensures { IsResponse (sending_of self.now) result (eof_again (shown self.now)) }
    {
        Response {
            inds: Indications::new(self.alloc),
            pdu: match self.control.eof {
                None => None,
                Some(eof) => Some(Pdu::eof(self.header, eof)),
            },
            arms: Some(TimerKind::Ack),
        }
    }

    // Check expired: nothing is sent, and at the limit a fault.
    fn on_check_timer(&self) -> Result<Response, AllocError>
        ensures { IfOk result (λ response. IsResponse (sending_of self.now) response
            (on_check_timer (sending_of self.now) (shown self.now) (shown self.now))) }
    {
        if self.control.tries.check + 1 < u32::from(self.params.limits().check) {
            let mut response = Response::nothing(self.alloc);
            response.arms = Some(TimerKind::Check);
            Ok(response)
        } else {
            self.fault_response(TimerKind::Check, Condition::CHECK_LIMIT)
        }
    }

    fn on_timer(&self, kind: TimerKind) -> Result<Response, AllocError>
        ensures { IfOk result (λ response. IsResponse (sending_of self.now) response
            (on_timer (sending_of self.now) (shown self.now) (shown self.now) kind)) }
    {
        match kind {
            TimerKind::Ack => self.on_ack_timer(),
            TimerKind::Inactivity => self.fault_response(
                TimerKind::Inactivity,
                Condition::INACTIVITY,
            ),
            TimerKind::Check => self.on_check_timer(),
            TimerKind::Nak => Ok(Response::nothing(self.alloc)),
        }
    }

    // The timer that runs after the EOF was sent.
    fn waiting_timer(&self) -> Option<TimerKind>
        ensures { option_to_list result ≡ waiting_timer (sending_of self.now) (shown self.now) }
    {
        if self.control.eof.is_none() {
            return None;
        }
        match self.request.class() {
            Class::One => Some(TimerKind::Check),
            Class::Two => {
                if self.control.acknowledged {
                    Some(TimerKind::Inactivity)
                } else {
                    Some(TimerKind::Ack)
                }
            }
        }
    }

    fn on_resume(&self) -> Result<Response, AllocError>
        ensures { IfOk result (λ response. IsResponse (sending_of self.now) response
            (response_to (sending_of self.now) (shown self.now) (shown self.now) (happens what.Resume))) }
    {
        let progress = self.control.progress;
        let mut response = Response::telling(self.alloc, Indication::Resumed { progress })?;
        response.arms = self.waiting_timer();
        Ok(response)
    }

    /// The response to an event, in the present state.
    pub(crate) fn response_to(&self, event: &What) -> Result<Response, AllocError>
        ensures { IfOk result (λ response. IsResponse (sending_of self.now) response
            (response_to (sending_of self.now) (shown self.now) (shown self.now) (happens event.now))) }
    {
        let progress = self.control.progress;
        match event {
            What::Pump => self.on_pump(),
            What::Pdu(pdu) => self.on_body(pdu.body()),
            What::Timer(kind, _) => self.on_timer(*kind),
            What::Cancel => self.cancel_response(Condition::CANCEL_REQUEST),
            What::Suspend => {
                let condition = Condition::SUSPEND_REQUEST;
                Response::telling(self.alloc, Indication::Suspended { condition })
            }
            What::Resume => self.on_resume(),
            What::Report => {
                let phase = self.control.phase();
                Response::telling(self.alloc, Indication::Report { phase, progress })
            }
            What::Abandon => {
                let condition = Condition::CANCEL_REQUEST;
                let told = Indication::Abandoned {
                    condition,
                    progress,
                };
                Response::telling(self.alloc, told)
            }
            What::Stored(_, _) => Ok(Response::nothing(self.alloc)),
        }
    }
}

ghost use Rattle.indications.specs.declared.indication.Indication.TheVariants as told;
ghost use Rattle.cfdp_types.specs.declared.names.Delivery.TheVariants.{Incomplete};
ghost use Rattle.cfdp_types.specs.declared.names.FileStatus.TheVariants.{Unreported};

// The end without a report from the receiver on the file.
fn unreported(condition: Condition) -> Indication
    ensures { result ≡ told.TransactionFinished condition Incomplete Unreported }
{
    Indication::TransactionFinished {
        condition,
        delivery: Delivery::Incomplete,
        status: FileStatus::Unreported,
    }
}
