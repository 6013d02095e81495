//! What a status says, and the verdict on it.
ghost use Rattle.std.specs.Prelude.{◌≡◌};
ghost use Rattle.ctl_check.specs.Verdicts.{check_status, needs_somebody, verdict_of};

// How many files an outbox has room for.
const OUTBOX_FILES: u64 = 1_024;

/// What a status says that somebody may have to look at.
#[derive(Clone, Copy)]
pub struct Health {
    /// How many links are held.
    pub held: u64,
    /// How many transactions failed, of those that are shown.
    pub failed: u64,
    /// How many received files couldn't be stored so far.
    pub unstored: u64,
    /// How many files wait in the outbox or are being sent.
    pub to_send: u64,
    /// Whether the log can't be written.
    pub is_log_failing: bool,
}

/// Whether somebody has to look at a station.
#[derive(Clone, Copy)]
pub enum Verdict {
    /// Nobody has to.
    Good,
    /// Something waits for somebody.
    Warning,
    /// The outbox takes no more files, or no server answers.
    Critical,
}

/// The verdict on a station.
pub fn verdict_of(health: Health) -> Verdict
    ensures { result ≡ verdict_of health }
{
    if health.to_send >= OUTBOX_FILES {
        Verdict::Critical
    } else if needs_somebody(health) {
        Verdict::Warning
    } else {
        Verdict::Good
    }
}

// Whether a link, a transaction, a received file or the log waits for somebody.
fn needs_somebody(health: Health) -> bool
    ensures { result ≡ needs_somebody health }
{
    (health.held > 0 || health.failed > 0) || (health.unstored > 0 || health.is_log_failing)
}

/// The exit status for a verdict.
pub fn check_status(found: Verdict) -> u8
    ensures { result ≡ check_status found }
{
    match found {
        Verdict::Good => 0,
        Verdict::Warning => 1,
        Verdict::Critical => 2,
    }
}
