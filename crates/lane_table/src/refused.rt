use crate::echo::Echo;
use txn_events::Refusal;

/// Why a lane refuses an event, which then changes nothing.
#[derive(Debug, Drop)]
pub struct Refused {
    pub why: Refusal,
    /// The ACK to send back to a PDU of an old transaction, if it gets one.
    pub echo: Option<Echo>,
}
