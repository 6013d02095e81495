//! What becomes of work that an entity refused.
ghost use Rattle.std.specs.Prelude.{◌≡◌};
ghost use Rattle.program_agenda.specs.Fates.{fate_of_retry, fate_of_pump};

/// What a refusal means for the work that was refused.
#[derive(Clone, Copy, Debug, PartialEq, Eq)]
pub enum Obstacle {
    /// It is temporary, such as running out of memory or a full queue.
    Passing,
    /// It lasts until an event comes for the transaction.
    Lasting,
    /// The transaction can make no more progress.
    Final,
}

/// What becomes of work that an entity refused.
#[derive(Clone, Copy, Debug, PartialEq, Eq)]
pub enum Fate {
    /// It is tried again soon.
    Again,
    /// It is tried again after the next event of its transaction.
    Awaits,
    /// It is dropped.
    Over,
}

/// What becomes of a timer that expired, or of a deposit, when the entity refuses it.
pub fn fate_of_retry(obstacle: Obstacle) -> Fate
    ensures { result ≡ fate_of_retry obstacle }
{
    match obstacle {
        Obstacle::Passing => Fate::Again,
        Obstacle::Lasting | Obstacle::Final => Fate::Over,
    }
}

/// What becomes of a file being sent, when the entity refuses to send its next segments.
pub fn fate_of_pump(obstacle: Obstacle) -> Fate
    ensures { result ≡ fate_of_pump obstacle }
{
    match obstacle {
        Obstacle::Passing => Fate::Again,
        Obstacle::Lasting => Fate::Awaits,
        Obstacle::Final => Fate::Over,
    }
}
