//! The line for monitoring.
use crate::health::{Health, Verdict, verdict_of};
use std::alloc::{AllocError, Global};

/// The line for what a status says, without a line feed.
pub fn check_line(alloc: Global, health: Health) -> Result<String, AllocError> {
    let mut line = String::from_str(alloc, word_of(verdict_of(health)))?;
    push_count(&mut line, "links held", health.held)?;
    push_count(&mut line, "transactions failed", health.failed)?;
    push_count(&mut line, "received files not stored", health.unstored)?;
    if health.is_log_failing {
        line.push_str("the log can't be written, ")?;
    }
    let to_send = health.to_send;
    write!(line, "files to send: {to_send}")?;
    Ok(line)
}

fn word_of(verdict: Verdict) -> &'static str {
    match verdict {
        Verdict::Good => "OK: ",
        Verdict::Warning => "WARNING: ",
        Verdict::Critical => "CRITICAL: the outbox is full, ",
    }
}

// Adds a count, unless it is zero.
fn push_count(line: &mut String, what: &str, count: u64) -> Result<(), AllocError> {
    if count > 0 {
        write!(line, "{what}: {count}, ")?;
    }
    Ok(())
}
