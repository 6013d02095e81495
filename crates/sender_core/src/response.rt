ghost use Rattle.std.specs.Prelude.{◌≡◌, [], ◌∷◌, None, Some, IfOk};

use cfdp_types::TimerKind;
use indications::{Indication, Indications};
use pdu_values::Pdu;
use std::alloc::{AllocError, Global};

/// A response of the state table: the indications to the user, the PDU to send, and the timer to arm.
#[derive(Drop)]
pub(crate) struct Response {
    pub(crate) inds: Indications,
    pub(crate) pdu: Option<Pdu>,
    pub(crate) arms: Option<TimerKind>,
}

impl Response {
    ghost use Rattle.std.specs.Prelude.{◌≡◌, [], ◌∷◌, None, Some, IfOk};

    /// The empty response.
    pub(crate) fn nothing(alloc: Global) -> Response
        ensures { result ≡ record { inds = []; pdu = None; arms = None } }
    {
        Response {
            inds: Indications::new(alloc),
            pdu: None,
            arms: None,
        }
    }

    /// A response with only one indication.
    pub(crate) fn telling(alloc: Global, indication: Indication) -> Result<Response, AllocError>
        ensures { IfOk result (λ response. response ≡ record { inds = indication ∷ []; pdu = None; arms = None }) }
    {
        let mut inds = Indications::new(alloc);
        inds.push(indication)?;
        Ok(Response {
            inds,
            pdu: None,
            arms: None,
        })
    }

    /// A response with only a PDU.
    pub(crate) fn sending(alloc: Global, pdu: Pdu) -> Response
        ensures { result ≡ record { inds = []; pdu = Some pdu; arms = None } }
    {
        Response {
            inds: Indications::new(alloc),
            pdu: Some(pdu),
            arms: None,
        }
    }
}
