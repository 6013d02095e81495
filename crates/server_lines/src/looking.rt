//! Which commands only look at the station.
ghost use Rattle.std.specs.Prelude.{◌≡◌};
ghost use Rattle.server_lines.specs.Looks.{only_looks, only_watches};

use crate::command::{Command, Tuning};

/// Whether a command only looks at the station, so that a status socket takes it, too.
pub fn only_looks(command: &Command) -> bool
    ensures { result ≡ only_looks command.now }
{
    match command {
        Command::Status | Command::Follow(_) | Command::Outbox | Command::Journal(_) => true,
        Command::Tune(tuning) => only_watches(tuning),
        _ => false,
    }
}

// Whether something only watches a part of the server.
fn only_watches(tuning: &Tuning) -> bool
    ensures { result ≡ only_watches tuning.now }
{
    match tuning {
        Tuning::FollowFrom(_, _) => true,
        _ => false,
    }
}
