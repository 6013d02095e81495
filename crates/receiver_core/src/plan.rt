use receiver_parts::control::ControlBlock;
use receiver_parts::file_change::FileChange;
use txn_events::Answer;

/// What carrying out a plan changes.
#[derive(Drop)]
pub(crate) struct Step {
    pub(crate) next: ControlBlock,
    pub(crate) change: FileChange,
}

/// An accepted event, with its answer and all the memory that it needs. A plan can be carried out in the state that it
/// was made in. Plans are passed on often, so what one changes is boxed.
#[derive(Drop)]
pub struct Plan {
    pub(crate) step: Box<Step>,
    pub(crate) answer: Answer,
}

impl Plan {
    ghost use Rattle.std.specs.Prelude.{◌≡◌};
    ghost use Rattle.receiver_core.specs.Core.{plan_answer};

    /// The answer that the event will get.
    pub fn answer(&self) -> &Answer
        ensures { result.now ≡ plan_answer self.now }
    {
        &self.answer
    }
}
