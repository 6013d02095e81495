use crate::carrier::Carrier;
use crate::intake::IntakeEnd;
use pdu_codec::Pdu;
use std::sync::Wait;

/// Where workers get the PDUs of datagrams. All workers share one source.
pub trait Source<R, A, C: Carrier<A>> {
    ghost use Rattle.std.specs.Prelude.{Result};
    ghost use Rattle.entity_parts.specs.declared.refusal.EntityRefusal.{EntityRefusal};

    /// Waits for the PDU of the next datagram, for the worker with this carrier. Returns None once no more can come.
    /// The carrier still accepts all answers that it accepted before.
    fn next(&self, rt: &R, carrier: &mut C) -> Option<Pdu>
        ensures { (other : Result A EntityRefusal) → C.accepts carrier.old other → C.accepts carrier.new other };
}

/// Takes the PDUs of the intake's messages, and leaves the carrier alone.
impl<R: Wait, A, C: Carrier<A>> Source<R, A, C> for IntakeEnd {
    fn next(&self, rt: &R, _carrier: &mut C) -> Option<Pdu> {
        let message = self.receive(rt)?;
        Some(message.into_pdu())
    }
}
