//! What remains to be sent after an event.
use crate::plan::Remainder;
use crate::remaining::Remaining;
use crate::sender::SenderCore;
use crate::steps::requests_of;
use std::alloc::AllocError;
use txn_events::What;

impl SenderCore {
    ghost use Rattle.std.specs.Prelude.{◌≡◌, ℕ, IfOk};
    ghost use Rattle.txn_events.specs.declared.event.What.TheVariants as what;
    ghost use Rattle.sender_core.specs.Core.{shown, sending_of, remainder_of, remains_after};

    // What remains once the next PDU is sent.
    fn remainder_by_pump(&self) -> Remainder
        ensures { (i : ℕ) → remainder_of self.now.remaining result i ≡ remains_after (sending_of self.now)
            (shown self.now) what.Pump i }
    {
        if self.control.metadata_remains {
            return Remainder::Same;
        }
        match self.first_run() {
            None => Remainder::Same,
            Some(run) => Remainder::SentTo(run.start + self.segment_of(run)),
        }
    }

    /// What remains after an event that is accepted in the present state.
    pub(crate) fn remainder(&self, event: &What) -> Result<Remainder, AllocError>
        ensures { IfOk result (λ remainder. (i : ℕ) → remainder_of self.now.remaining remainder i ≡ remains_after
            (sending_of self.now) (shown self.now) event.now i) }
    {
        if matches!(event, What::Pump) {
            return Ok(self.remainder_by_pump());
        }
        match requests_of(event) {
            None => Ok(Remainder::Same),
            Some(requests) => {
                let requested = self
                    .remaining
                    .with_requests(self.alloc, requests, self.size())?;
                Ok(Remainder::Requested(requested))
            }
        }
    }
}

ghost use Rattle.gap_list.specs.Runs.{SameSet};
ghost use Rattle.sender_core.specs.Remaining.{to_send};
ghost use Rattle.sender_core.specs.Core.{remainder_of};

/// Carries out what a plan does to the offsets that remain to be sent, without allocating.
pub(crate) fn apply_remainder(remaining: &mut Remaining, remainder: Remainder)
    ensures { SameSet (to_send remaining.new) (remainder_of remaining.old remainder) }
{
    match remainder {
        Remainder::Same => {}
        Remainder::SentTo(end) => remaining.send_to(end),
        Remainder::Requested(requested) => *remaining = requested,
    }
}
