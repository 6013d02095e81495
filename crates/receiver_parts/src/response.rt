ghost use Rattle.std.specs.Prelude.{◌≡◌, IfOk};

use cfdp_types::{Condition, TimerKind};
use indications::{Indication, Indications};
use pdu_values::Finished;
use std::alloc::{AllocError, Global};

/// A response of the state table.
#[derive(Drop)]
pub struct Response {
    /// The indications to the user.
    pub inds: Indications,
    /// The condition code of the EOF, if one is acknowledged.
    pub ack: Option<Condition>,
    /// Whether a NAK is sent.
    pub nak: bool,
    /// Whether a Keep Alive is sent.
    pub keep_alive: bool,
    pub finished: Option<Finished>,
    /// Whether the file is handed to the file store.
    pub deposit: bool,
    /// Whether Inactivity is armed, before the timer in `arms`.
    pub resumes: bool,
    pub arms: Option<TimerKind>,
}

impl Response {
    ghost use Rattle.std.specs.Prelude.{◌≡◌, ◌∷◌, ◌++◌, [], IfOk};
    ghost use Rattle.receiver_parts.specs.Response.{only};

    /// A response with only these indications.
    pub fn of(inds: Indications) -> Response
        ensures { result ≡ only inds }
    {
        Response {
            inds,
            ack: None,
            nak: false,
            keep_alive: false,
            finished: None,
            deposit: false,
            resumes: false,
            arms: None,
        }
    }

    /// A response with only these indications and one more.
    pub fn telling_more(
        mut inds: Indications,
        indication: Indication,
    ) -> Result<Response, AllocError>
        ensures { IfOk result (λ response. response ≡ only (inds ++ indication ∷ [])) }
    {
        inds.push(indication)?;
        Ok(Response::of(inds))
    }

    /// A response with only one indication.
    pub fn telling(alloc: Global, indication: Indication) -> Result<Response, AllocError>
        ensures { IfOk result (λ response. response ≡ only (indication ∷ [])) }
    {
        let mut inds = Indications::new(alloc);
        inds.push(indication)?;
        Ok(Response::of(inds))
    }
}
