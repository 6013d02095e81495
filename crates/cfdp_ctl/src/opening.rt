//! Opens and holds links by a plan.
use crate::asking::{Line, REST_MILLIS, first_line, may_return};
use crate::fault::CtlFault;
use crate::known::ask_for_known;
use crate::planning::{complain, print_faults, wall_moment};
use crate::screen::Screen;
use ctl_views::{Page, Tone, exit_status, outcome_of};
use ctl_windows::{
    Act, Fault, Given, Link, Why, Window, act_at, given_after, hold_command, links_of, moment_text,
    next_look, rate_command, release_command, window_at,
};
use station_client::StationFault;
use std::alloc::Global;
use std::io::Write;
use std::net::Net;
use std::sync::Wait;
use std::thread;
use std::time::{Clock, Duration};

// How many milliseconds pass at most before the clock is looked at again, which somebody may set.
const TURN_MILLIS: u64 = 1_000;

// A plan that runs.
#[derive(Drop)]
struct Running<'a> {
    /// The path of the control socket.
    path: &'a str,
    links: Vec<Link>,
    /// Whether the server took each command.
    all_taken: bool,
}

/// Opens and holds links by the windows of a plan until the last one has ended, and returns the exit status. Goes on with
/// the next server at the same path if the server goes away.
pub(crate) fn open_by<R, W, E>(
    rt: &R,
    alloc: Global,
    screen: &mut Screen<W, E>,
    line: &mut Line,
    (path, plan): (&str, &str),
    windows: &[Window],
) -> Result<u8, CtlFault>
where
    R: Net + Clock + Wait,
    W: Write + Drop,
    E: Write + Drop,
{
    let links = links_of(alloc, windows, wall_moment(rt))?;
    if links.is_empty() {
        complain(alloc, screen, plan, "no window is left")?;
        return Ok(0);
    }
    if !are_known(rt, alloc, screen, line, plan, links.as_slice())? {
        return Ok(2);
    }
    let mut running = Running {
        path,
        links,
        all_taken: true,
    };
    for _ in rt.forever() {
        match turn(rt, alloc, screen, line, &mut running) {
            Ok(true) => {}
            Err(CtlFault::Station(fault)) if may_return(fault) => {
                *line = line_again(rt, alloc, screen, &mut running, fault)?;
            }
            Ok(false) => break,
            Err(fault) => return Err(fault),
        }
    }
    Ok(if running.all_taken { 0 } else { 3 })
}

// Whether the server has each entity of the plan; prints a line for each window of another one.
fn are_known<R, W, E>(
    rt: &R,
    alloc: Global,
    screen: &mut Screen<W, E>,
    line: &mut Line,
    plan: &str,
    links: &[Link],
) -> Result<bool, CtlFault>
where
    R: Clock + Wait,
    W: Write + Drop,
    E: Write + Drop,
{
    let known = ask_for_known(rt, alloc, line)?;
    let mut faults = Vec::new(alloc);
    for link in links {
        if known.has_remote(link.remote) {
            continue;
        }
        for window in link.windows.as_slice() {
            let remote = window.remote;
            let fault = Fault {
                line: window.line,
                word: format!(in alloc; "{remote}")?,
                why: Why::Unknown,
            };
            if faults.push(fault).is_err() {
                return Err(CtlFault::NoMemory);
            }
        }
    }
    print_faults(alloc, screen, plan, faults.as_slice())?;
    Ok(faults.is_empty())
}

// Does what is to be done now, and waits until something may have to be done again; false once all windows are over.
fn turn<R, W, E>(
    rt: &R,
    alloc: Global,
    screen: &mut Screen<W, E>,
    line: &mut Line,
    running: &mut Running<'_>,
) -> Result<bool, CtlFault>
where
    R: Clock + Wait,
    W: Write + Drop,
    E: Write + Drop,
{
    let now = wall_moment(rt);
    for link in running.links.as_mut_slice() {
        if !do_at(rt, alloc, screen, line, link, now)? {
            running.all_taken = false;
        }
    }
    let Some(next) = next_look(running.links.as_slice(), now) else {
        return Ok(false);
    };
    let _event = line.next_event(rt, next.saturating_sub(now).min(TURN_MILLIS))?;
    Ok(true)
}

// Does what is to be done to a link at a moment; false if the server refuses it.
fn do_at<R, W, E>(
    rt: &R,
    alloc: Global,
    screen: &mut Screen<W, E>,
    line: &mut Line,
    link: &mut Link,
    now: u64,
) -> Result<bool, CtlFault>
where
    R: Clock + Wait,
    W: Write + Drop,
    E: Write + Drop,
{
    let current = window_at(link.windows.as_slice(), now);
    let is_taken = match act_at(current, link.given, now) {
        Act::Nothing => return Ok(true),
        Act::Hold => {
            let command = hold_command(alloc, link.remote)?;
            give(rt, alloc, screen, line, command.as_str(), now)?
        }
        Act::Open(rate, seconds) => {
            let is_limited = match rate_command(alloc, link.remote, rate)? {
                Some(command) => give(rt, alloc, screen, line, command.as_str(), now)?,
                None => true,
            };
            let command = release_command(alloc, link.remote, seconds)?;
            give(rt, alloc, screen, line, command.as_str(), now)? && is_limited
        }
    };
    if is_taken {
        link.given = given_after(current, link.given, now);
    }
    Ok(is_taken)
}

// Gives a command, and prints it with its reply; false if the server refuses it.
fn give<R, W, E>(
    rt: &R,
    alloc: Global,
    screen: &mut Screen<W, E>,
    line: &mut Line,
    command: &str,
    now: u64,
) -> Result<bool, CtlFault>
where
    R: Clock + Wait,
    W: Write + Drop,
    E: Write + Drop,
{
    let answer = line.ask(rt, command.as_bytes())?;
    let answer = first_line(answer.as_slice());
    let is_taken = exit_status(outcome_of(answer)) == 0;
    let (moment, answer) = (
        moment_text(alloc, now)?,
        String::from_utf8_lossy(alloc, answer)?,
    );
    let text = format!(in alloc; "{moment} {command}: {answer}")?;
    let mut page = Page::new(alloc);
    page.push_line(
        if is_taken { Tone::Plain } else { Tone::Bad },
        text.as_str(),
    )?;
    screen.print_page(alloc, &page)?;
    Ok(is_taken)
}

// Reports a fault, and returns a connection to the next server, of which nothing is known. If all windows are over before,
// returns the fault.
fn line_again<R, W, E>(
    rt: &R,
    alloc: Global,
    screen: &mut Screen<W, E>,
    running: &mut Running<'_>,
    fault: StationFault,
) -> Result<Line, CtlFault>
where
    R: Net + Clock + Wait,
    W: Write + Drop,
    E: Write + Drop,
{
    let text = format!(in alloc; "{}; waiting for it", fault.text())?;
    complain(alloc, screen, running.path, text.as_str())?;
    for link in running.links.as_mut_slice() {
        link.given = Given::Nothing;
    }
    for _ in rt.forever() {
        thread::sleep(rt, Duration::from_millis(REST_MILLIS));
        if next_look(running.links.as_slice(), wall_moment(rt)).is_none() {
            break;
        }
        match Line::open(rt, alloc, running.path, None) {
            Err(CtlFault::Station(again)) if may_return(again) => {}
            opened => return opened,
        }
    }
    Err(CtlFault::Station(fault))
}
