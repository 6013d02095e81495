//! The PDUs that a reception sends.
ghost use Rattle.std.specs.Prelude.{◌≡◌, if◌then◌else◌};
ghost use Rattle.pdu_values.specs.declared.bodies.TransactionStatus.TheVariants as status;

use crate::receiver::ReceiverCore;
use cfdp_types::Condition;
use cfdp_types::limits::NAK_REQUESTS;
use pdu_values::{
    Ack, Acknowledged, Body, Direction, Finished, Header, KeepAlive, Pdu, TransactionStatus,
};
use receiver_parts::control::ControlBlock;
use receiver_parts::file_change::FileChange;
use receiver_parts::nak::nak;
use receiver_parts::response::Response;
use std::alloc::AllocError;
use txn_events::Pdus;

impl ReceiverCore {
    ghost use Rattle.std.specs.Prelude.{◌≡◌, ◌++◌, IfOk, OnOk, map, is_some};
    ghost use Rattle.pdu_values.specs.Spelling.{HeaderFits};
    ghost use Rattle.pdu_values.specs.declared.pdu.Body.{Body};
    ghost use Rattle.pdu_values.specs.declared.pdu.Body.TheVariants as body;
    ghost use Rattle.receiver_table.specs.Answers.{pdu_to_sender, ack_of, nak_of, if_there, if_so, bodies_of};
    ghost use Rattle.receiver_parts.specs.Response.{response_value};
    ghost use Rattle.receiver_parts.specs.FileChange.{metadata_after, IsReady};
    ghost use Rattle.receiver_core.specs.Core.{reception_of, now_state};

    // The header of the PDUs that the reception sends.
    fn reply_header(&self) -> Header
        ensures value { (b : Body) → pdu_to_sender (reception_of self.now) b ≡ record { header = result; body = b } }
        ensures fits { HeaderFits result }
    {
        Header {
            direction: Direction::TowardSender,
            ..self.header
        }
    }

    // The ACK of an EOF.
    fn ack(&self, condition: Condition, ended: bool) -> Pdu
        ensures { result ≡ pdu_to_sender (reception_of self.now) (ack_of ended condition) }
    {
        let of = Acknowledged::Eof;
        let status = status_of(ended);
        let ack = Ack {
            of,
            condition,
            status,
        };
        Pdu::ack(self.reply_header(), ack)
    }

    fn keep_alive(&self, progress: u32) -> Pdu
        ensures { result ≡ pdu_to_sender (reception_of self.now) (body.KeepAlive (record { progress = progress })) }
    {
        let progress = u64::from(progress);
        Pdu::keep_alive(self.reply_header(), KeepAlive { progress })
    }

    fn finished(&self, finished: Finished) -> Pdu
        ensures { result ≡ pdu_to_sender (reception_of self.now) (body.Finished finished) }
    {
        Pdu::finished(self.reply_header(), finished)
    }

    // Whether there is Metadata after a change.
    fn has_metadata_after(&self, change: &FileChange) -> bool
        ensures { result ≡ is_some (metadata_after self.now.metadata change.now) }
    {
        self.metadata.is_some() || matches!(change, FileChange::Metadata(_))
    }

    // The NAK for what is missing of the file.
    fn nak(&self, current: &ControlBlock, change: &FileChange) -> Result<Pdu, AllocError>
        requires { IsReady self.now.file current.now change.now }
        ensures { IfOk result
            (λ pdu. pdu ≡ pdu_to_sender (reception_of self.now) (nak_of (now_state self.now current.now change.now))) }
    {
        let scope = current.scope();
        // One run more than a NAK may hold shows that some are left out.
        let runs = self.file.missing_after(change, scope, NAK_REQUESTS + 1)?;
        let nak = nak(
            self.alloc,
            self.has_metadata_after(change),
            scope,
            runs.as_slice(),
        )?;
        Ok(Pdu::nak(self.reply_header(), nak))
    }

    fn put_ack(&self, pdus: &mut Pdus, response: &Response, ended: bool) -> Result<(), AllocError>
        ensures { OnOk result (pdus.new ≡ pdus.old ++ map (pdu_to_sender (reception_of self.now))
            (if_there (ack_of ended) response.now.ack)) }
    {
        match response.ack {
            None => Ok(()),
            Some(condition) => pdus.push(self.ack(condition, ended)),
        }
    }

    fn put_nak(
        &self,
        pdus: &mut Pdus,
        response: &Response,
        current: &ControlBlock,
        change: &FileChange,
    ) -> Result<(), AllocError>
        requires { IsReady self.now.file current.now change.now }
        ensures { OnOk result (pdus.new ≡ pdus.old ++ map (pdu_to_sender (reception_of self.now))
            (if_so response.now.nak (nak_of (now_state self.now current.now change.now)))) }
    {
        if response.nak {
            pdus.push(self.nak(current, change)?)
        } else {
            Ok(())
        }
    }

    fn put_keep_alive(
        &self,
        pdus: &mut Pdus,
        response: &Response,
        progress: u32,
    ) -> Result<(), AllocError>
        ensures { OnOk result (pdus.new ≡ pdus.old ++ map (pdu_to_sender (reception_of self.now))
            (if_so response.now.keep_alive (body.KeepAlive (record { progress = progress })))) }
    {
        if response.keep_alive {
            pdus.push(self.keep_alive(progress))
        } else {
            Ok(())
        }
    }

    fn put_finished(&self, pdus: &mut Pdus, response: &Response) -> Result<(), AllocError>
        ensures { OnOk result (pdus.new ≡ pdus.old ++ map (pdu_to_sender (reception_of self.now))
            (if_there body.Finished response.now.finished)) }
    {
        match response.finished {
            None => Ok(()),
            Some(finished) => pdus.push(self.finished(finished)),
        }
    }

    /// The PDUs to send for a response. `current` is the control block with the event, and `ended` gives the
    /// transaction status in an ACK.
    pub(crate) fn pdus_of(
        &self,
        response: &Response,
        current: &ControlBlock,
        change: &FileChange,
        ended: bool,
    ) -> Result<Pdus, AllocError>
        requires { IsReady self.now.file current.now change.now }
        ensures { IfOk result (λ pdus. pdus ≡ map (pdu_to_sender (reception_of self.now))
            (bodies_of (now_state self.now current.now change.now) ended (response_value response.now))) }
    {
        let mut pdus = Pdus::new(self.alloc);
        self.put_ack(&mut pdus, response, ended)?;
        self.put_nak(&mut pdus, response, current, change)?;
        self.put_keep_alive(&mut pdus, response, current.progress)?;
        self.put_finished(&mut pdus, response)?;
        Ok(pdus)
    }
}

// The transaction status in an ACK.
fn status_of(ended: bool) -> TransactionStatus
    ensures { result ≡ (if ended then status.Terminated else status.Active) }
{
    if ended {
        TransactionStatus::Terminated
    } else {
        TransactionStatus::Active
    }
}
