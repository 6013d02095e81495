//! What became of a command, by its answer.
ghost use Rattle.std.specs.Prelude.{◌≡◌, ◌↔◌, IsTrue};
ghost use Rattle.ctl_views.specs.Outcomes.{IsOutcome, SaysRefused, exit_status};

/// What became of a command.
#[derive(Clone, Copy)]
pub enum Outcome {
    /// The server took it.
    Taken,
    /// The entity or the server refused it.
    Refused,
    /// It is not a command.
    BadCommand,
    /// Its file couldn't be read.
    ReadFault,
    /// The number of its Put couldn't be written to the file of numbers.
    NumbersFault,
    /// The line of its file couldn't be written to the file of the outbox.
    OutboxFault,
}

/// What became of a command, by the first line of its answer, without the line feed.
pub fn outcome_of(line: &[u8]) -> Outcome
    ensures { IsOutcome result line.now }
{
    if line == b"bad command".as_slice() {
        Outcome::BadCommand
    } else if line == b"read fault".as_slice() {
        Outcome::ReadFault
    } else if line == b"numbers fault".as_slice() {
        Outcome::NumbersFault
    } else if line == b"outbox fault".as_slice() {
        Outcome::OutboxFault
    } else if says_refused(line) {
        Outcome::Refused
    } else {
        Outcome::Taken
    }
}

// Whether a line reports that a command was refused.
fn says_refused(line: &[u8]) -> bool
    ensures { IsTrue result ↔ SaysRefused line.now }
{
    line.len() >= 8 && &line[..8] == b"refused ".as_slice()
}

/// The exit status for what became of a command.
pub fn exit_status(outcome: Outcome) -> u8
    ensures { result ≡ exit_status outcome }
{
    match outcome {
        Outcome::Taken => 0,
        Outcome::Refused
        | Outcome::BadCommand
        | Outcome::ReadFault
        | Outcome::NumbersFault
        | Outcome::OutboxFault => 3,
    }
}
