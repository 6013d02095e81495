//! Reads a plan of windows, and shows it.
use crate::fault::CtlFault;
use crate::reasons::reason_of;
use crate::screen::Screen;
use ctl_views::{Page, Tone};
use ctl_windows::{Fault, Plan, Window, fault_text, read_plan, row_head, row_text};
use std::alloc::Global;
use std::fs::File;
use std::io;
use std::io::{Read, Write};
use std::rt::Files;
use std::time::Clock;

// The most octets of a plan.
const PLAN_OCTETS: u64 = 16_777_216;

/// The windows of the plan at a path. Prints why there are none; the exit status then.
pub(crate) fn windows_at<R, W, E>(
    rt: &R,
    alloc: Global,
    screen: &mut Screen<W, E>,
    path: &str,
) -> Result<Result<Vec<Window>, u8>, CtlFault>
where
    R: Files,
    W: Write + Drop,
    E: Write + Drop,
{
    let octets = match read_file(rt, alloc, path) {
        Ok(octets) => octets,
        Err(error) => {
            complain(alloc, screen, path, reason_of(&error))?;
            return Ok(Err(3));
        }
    };
    let text = String::from_utf8_lossy(alloc, octets.as_slice())?;
    let Plan { windows, faults } = read_plan(alloc, text.as_str())?;
    print_faults(alloc, screen, path, faults.as_slice())?;
    Ok(if faults.is_empty() {
        Ok(windows)
    } else {
        Err(2)
    })
}

fn read_file<R: Files>(rt: &R, alloc: Global, path: &str) -> io::Result<Vec<u8>> {
    let mut octets = Vec::new(alloc);
    File::open(rt, path)?
        .take(PLAN_OCTETS)
        .read_to_end(&mut octets)?;
    Ok(octets)
}

/// Prints the faults of the plan at a path.
pub(crate) fn print_faults<W: Write + Drop, E: Write + Drop>(
    alloc: Global,
    screen: &mut Screen<W, E>,
    path: &str,
    faults: &[Fault],
) -> Result<(), CtlFault> {
    for fault in faults {
        let text = fault_text(alloc, fault)?;
        complain(alloc, screen, path, text.as_str())?;
    }
    Ok(())
}

/// Prints the plan at a path as a table: what is open, what comes and in how long. Returns the exit status.
pub(crate) fn show_plan<R, W, E>(
    rt: &R,
    alloc: Global,
    screen: &mut Screen<W, E>,
    path: &str,
) -> Result<u8, CtlFault>
where
    R: Files + Clock,
    W: Write + Drop,
    E: Write + Drop,
{
    let mut windows = match windows_at(rt, alloc, screen, path)? {
        Ok(windows) => windows,
        Err(status) => return Ok(status),
    };
    windows.sort_by_key(|window| (window.from, window.remote))?;
    let now = wall_moment(rt);
    let mut page = Page::new(alloc);
    page.push_line(Tone::Faint, row_head())?;
    for window in windows.as_slice() {
        let text = row_text(alloc, *window, now)?;
        page.push_line(tone_of(*window, now), text.as_str())?;
    }
    screen.print_page(alloc, &page)?;
    Ok(0)
}

// An open window stands out from those that come, and these from those that are over.
fn tone_of(window: Window, now: u64) -> Tone {
    if now < window.from {
        Tone::Plain
    } else if now < window.until {
        Tone::Good
    } else {
        Tone::Faint
    }
}

/// The moment in milliseconds since 1970, on the system's clock.
pub(crate) fn wall_moment<R: Clock>(rt: &R) -> u64 {
    match rt.since_1970() {
        Ok(time) => u64::try_from(time.as_millis()).unwrap_or(u64::MAX),
        Err(_) => 0,
    }
}

/// Prints a line about a plan on the standard error.
pub(crate) fn complain<W: Write + Drop, E: Write + Drop>(
    alloc: Global,
    screen: &mut Screen<W, E>,
    about: &str,
    why: &str,
) -> Result<(), CtlFault> {
    let text = format!(in alloc; "cfdp_ctl: {about}: {why}")?;
    screen.complain_line(alloc, text.as_str());
    Ok(())
}
