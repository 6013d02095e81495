use pdu_values::{Ack, Body, Header, Pdu};
use std::marker::Model;

/// The ACK that answers a PDU of an old transaction. It needs no memory of its own, so a refusal has it even where
/// memory runs out. Contracts see it as the PDU.
#[derive(Debug, Drop)]
pub struct Echo {
    header: Header,
    ack: Ack,
}

impl Model for Echo {
    ghost use Rattle.pdu_values.specs.Pdu.{PduValue};
    ghost use Rattle.pdu_values.specs.Spelling.{Fits};
    ghost use Rattle.pdu_values.specs.declared.pdu.Body.TheVariants as body;

    ghost Value = { PduValue };

    ghost view = { λ e. record { header = e.header; body = body.Ack e.ack } };

    ghost invariant = { λ e. Fits (record { header = e.header; body = body.Ack e.ack }) };
}

impl Echo {
    ghost use Rattle.std.specs.Prelude.{◌≡◌};
    ghost use Rattle.pdu_values.specs.Spelling.{HeaderFits};
    ghost use Rattle.pdu_values.specs.declared.pdu.Body.TheVariants as body;

    /// The ACK with this header.
    pub fn new(header: Header, ack: Ack) -> Echo
        requires { HeaderFits header }
        ensures { result ≡ record { header = header; body = body.Ack ack } }
    {
        let _code = ack.condition.code();
        Echo { header, ack }
    }

    /// The ACK as a PDU.
    pub fn pdu(&self) -> Pdu
        ensures { result ≡ self.now }
    {
        Pdu::new(self.header, Body::Ack(self.ack))
    }
}
