use crate::control::ControlBlock;
use crate::remaining::Remaining;
use txn_events::Answer;

/// What a plan does to the offsets that remain to be sent.
#[derive(Drop)]
pub(crate) enum Remainder {
    /// They stay the same.
    Same,
    /// All below this offset are sent.
    SentTo(u32),
    /// More are requested: then these remain.
    Requested(Remaining),
}

/// An accepted event, with its answer and all the memory that it needs. A plan can be carried out in the state that it
/// was made in.
#[derive(Drop)]
pub struct Plan {
    pub(crate) next: ControlBlock,
    pub(crate) remainder: Remainder,
    pub(crate) answer: Answer,
}

impl Plan {
    ghost use Rattle.std.specs.Prelude.{◌≡◌};
    ghost use Rattle.sender_core.specs.Core.{plan_answer};

    /// The answer that the event will get.
    pub fn answer(&self) -> &Answer
        ensures { result.now ≡ plan_answer self.now }
    {
        &self.answer
    }
}
