//! One line for monitoring.
use crate::asking::{Line, first_line};
use crate::fault::CtlFault;
use crate::screen::Screen;
use ctl_check::{Verdict, check_line, check_status, health_in, verdict_of};
use ctl_views::{exit_status, outcome_of, shown_lines};
use station_client::StationFault;
use std::alloc::Global;
use std::io::Write;
use std::sync::Wait;
use std::time::Clock;

/// Prints whether somebody has to look at the station, and returns the exit status for it.
pub(crate) fn check<R, W, E>(
    rt: &R,
    alloc: Global,
    screen: &mut Screen<W, E>,
    line: &mut Line,
) -> Result<u8, CtlFault>
where
    R: Clock + Wait,
    W: Write + Drop,
    E: Write + Drop,
{
    let answer = line.ask(rt, b"status")?;
    let answer = String::from_utf8_lossy(alloc, answer.as_slice())?;
    let first = first_line(answer.as_bytes());
    if exit_status(outcome_of(first)) != 0 {
        return print_critical(alloc, screen, first);
    }
    let failed = shown_lines(alloc, answer.as_str(), None, true)?;
    let health = health_in(alloc, answer.as_str(), failed.as_str())?;
    let text = check_line(alloc, health)?;
    screen.print_line(alloc, "", text.as_bytes())?;
    Ok(check_status(verdict_of(health)))
}

/// Prints that no server answers at a path, and returns the exit status for it.
pub(crate) fn print_unanswered<W: Write + Drop, E: Write + Drop>(
    alloc: Global,
    screen: &mut Screen<W, E>,
    path: &str,
    fault: StationFault,
) -> Result<u8, CtlFault> {
    let text = fault.text();
    let why = format!(in alloc; "{path}: {text}")?;
    print_critical(alloc, screen, why.as_bytes())
}

fn print_critical<W: Write + Drop, E: Write + Drop>(
    alloc: Global,
    screen: &mut Screen<W, E>,
    why: &[u8],
) -> Result<u8, CtlFault> {
    screen.print_line(alloc, "CRITICAL: ", why)?;
    Ok(check_status(Verdict::Critical))
}
