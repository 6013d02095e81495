//! What the console knows of its station.
ghost use Rattle.std.specs.Prelude.{◌≡◌, [], IfOk};
ghost use Rattle.std.specs.Option.{option_copied};
ghost use Rattle.web_console.specs.Shown.{IsSeen, IsShown, IsShownAway, IsShownHere};

use crate::asked::Asked;
use crate::events::Events;
use crate::kept::{Kept, KeptPlan, Lines};
use crate::plan::{Mark, mark_at, no_plan, plan_json};
use station_client::{Station, StationFault};
use std::alloc::{AllocError, Global};
use std::net::Net;
use std::rt::Files;
use std::sync::{Arc, Condvar, CondvarTimeouts, Mutex, Wait};
use std::thread;
use std::time::{Clock, Duration};
use web_lines::{event_number, no_metrics, start_moment, to_document, to_metrics};
use web_pages::{Found, Permit, Route, Source};

// How many milliseconds to rest before asking the station for events again.
const REST_MILLIS: u64 = 500;

// How many milliseconds to wait for the answer that another thread asks for.
const OTHERS_MILLIS: u64 = 1500;

// How many milliseconds the station may take to let in whoever follows its events, and to answer.
const FOLLOW_MILLIS: u64 = 5000;

// How many milliseconds one wait for an event lasts.
const EVENT_MILLIS: u64 = 60_000;

/// What the console knows of its station. The station is asked one `status` at a time, and a reply is used again for
/// half a second. No lock is held while the station is asked, and it is asked nothing but what `Asked` has.
#[derive(Drop)]
pub struct Watch<'a, R> {
    rt: &'a R,
    alloc: Global,
    path: &'a str,
    /// The path of the plan, if there is one.
    plan: Option<&'a str>,
    kept: Mutex<Kept>,
    answered: Condvar,
    events: Mutex<Events>,
    kept_plan: Mutex<KeptPlan>,
}

impl<'a, R: Wait + Net + Clock> Watch<'a, R> {
    /// Nothing is known so far of the station with this control socket, and of the plan at this path.
    pub fn new(rt: &'a R, alloc: Global, path: &'a str, plan: Option<&'a str>) -> Watch<'a, R> {
        Watch {
            rt,
            alloc,
            path,
            plan,
            kept: Mutex::new(Kept::new()),
            answered: Condvar::new(),
            events: Mutex::new(Events::new(alloc)),
            kept_plan: Mutex::new(KeptPlan::new()),
        }
    }

    /// Keeps the last events of the station. Never ends.
    pub fn follow_events(&self) {
        for _ in self.rt.forever() {
            let _ended = self.follow_once();
            thread::sleep(self.rt, Duration::from_millis(REST_MILLIS));
        }
    }

    // Keeps events until the station goes.
    fn follow_once(&self) -> Result<(), StationFault> {
        let patience = Duration::from_millis(FOLLOW_MILLIS);
        let mut station = Station::connect(self.rt, self.alloc, self.path, patience)?;
        let status = station.ask(self.rt, Asked::Status.line(), patience)?;
        // a large file may have left only its pieces among the last events of all
        let _kept = station.ask(self.rt, Asked::Kept.line(), patience)?;
        let _ok = station.ask(self.rt, Asked::Events.line(), patience)?;
        self.begin_run(status.as_slice())?;
        for _ in self.rt.forever() {
            let limit = Duration::from_millis(EVENT_MILLIS);
            if let Some(json) = station.next_event(self.rt, limit)? {
                self.keep_event(json)?;
            }
        }
        Ok(())
    }

    // Begins the run that the status reports, to which the next events belong.
    fn begin_run(&self, status: &[u8]) -> Result<(), AllocError> {
        let moment = match str::from_utf8(status) {
            Ok(lines) => start_moment(self.alloc, lines)?,
            Err(_) => None,
        };
        let start = match &moment {
            Some(moment) => moment.as_bytes(),
            None => b"".as_slice(),
        };
        self.events.lock(self.rt).begin(start)
    }

    // Keeps an event, if it is one.
    fn keep_event(&self, json: Vec<u8>) -> Result<(), AllocError> {
        let number = match str::from_utf8(json.as_slice()) {
            Ok(text) => event_number(self.alloc, text)?,
            Err(_) => None,
        };
        match number {
            Some(number) => self.events.lock(self.rt).push(number, json),
            None => Ok(()),
        }
    }

    // Asks the station once.
    fn ask(&self, asked: Asked<'_>) -> Result<Vec<u8>, StationFault> {
        let limit = Duration::from_millis(asked.millis());
        Station::ask_once(self.rt, self.alloc, self.path, asked.line(), limit)
    }

    // The lines of a status that is fresh enough. A caller that finds another one asking waits for what that one hears.
    fn status(&self) -> Lines {
        if let Some(lines) = self.kept_status() {
            return lines;
        }
        let lines = match self.ask(Asked::Status) {
            Ok(lines) => Arc::new(self.alloc, lines).ok(),
            Err(_) => None,
        };
        self.keep_status(lines)
    }

    // The answer that is kept; None where the caller has to ask, and to keep what it hears.
    fn kept_status(&self) -> Option<Lines> {
        let limit = Duration::from_millis(OTHERS_MILLIS);
        let (mut kept, _late) = self.answered.wait_timeout_while(
            self.rt,
            self.kept.lock(self.rt),
            limit,
            |kept| kept.is_asking(),
        );
        if kept.is_asking() {
            return Some(None);
        }
        let now = self.rt.monotonic().unwrap_or(Duration::ZERO);
        if kept.is_fresh(now) {
            return Some(kept.lines());
        }
        kept.begin();
        None
    }

    // The plan as JSON, as it was read last.
    fn plan_json(&self) -> Result<Vec<u8>, AllocError> {
        match self.kept_json() {
            Some(json) => Vec::from_slice(self.alloc, json.as_slice()),
            None => no_plan(self.alloc),
        }
    }

    // The plan that was read last, if there is one.
    fn kept_json(&self) -> Lines {
        self.kept_plan.lock(self.rt).json()
    }

    // Keeps an answer, and returns it.
    fn keep_status(&self, lines: Lines) -> Lines {
        let now = self.rt.monotonic().ok();
        let mut kept = self.kept.lock(self.rt);
        kept.keep(now, lines);
        let given = kept.lines();
        drop(kept);
        self.answered.notify_all();
        given
    }
}

// The lines of an answer, where there is one and it is text.
fn text_of(lines: &Lines) -> Option<&str> {
    match lines {
        Some(lines) => str::from_utf8(lines.as_slice()).ok(),
        None => None,
    }
}

// Writes what a route makes of the lines of a status, if there are any, into an empty text.
fn push_status(
    alloc: Global,
    route: Route,
    lines: Option<&str>,
    text: &mut Vec<u8>,
) -> Result<Found, AllocError>
    requires { text.old.items ≡ [] }
    ensures { IfOk result (λ found. IsShown route (option_copied lines.entry) text.new.items found) }
{
    match lines {
        Some(lines) => {
            text.extend_from_slice(here_text(alloc, route, lines)?.as_slice())?;
            Ok(Found::Here)
        }
        None => {
            let (found, away) = away_text(alloc, route)?;
            text.extend_from_slice(away.as_slice())?;
            Ok(found)
        }
    }
}

// What a route shows where the station answers with these lines.
fn here_text(alloc: Global, route: Route, lines: &str) -> Result<Vec<u8>, AllocError>
    ensures { IfOk result (λ text. IsShownHere route lines.now text.items) }
{
    match route {
        Route::Metrics => to_metrics(alloc, lines),
        Route::Status => to_document(alloc, lines),
        Route::Page | Route::Events | Route::Windows | Route::Health | Route::Command => {
            Vec::from_slice(alloc, b"ok\n".as_slice())
        }
    }
}

// What a route shows where the station doesn't answer, and whether that counts as an answer.
fn away_text(alloc: Global, route: Route) -> Result<(Found, Vec<u8>), AllocError>
    ensures { IfOk result (λ shown. IsShownAway route shown.1.items shown.0) }
{
    match route {
        Route::Metrics => Ok((Found::Here, no_metrics(alloc)?)),
        Route::Status
        | Route::Page
        | Route::Events
        | Route::Windows
        | Route::Health
        | Route::Command => {
            let text = Vec::from_slice(alloc, b"the station does not answer\n".as_slice())?;
            Ok((Found::Away, text))
        }
    }
}

impl<'a, R: Wait + Files> Watch<'a, R> {
    /// Reads the plan anew, if its file has changed. If memory runs out, that is tried again at the next look.
    pub(crate) fn look_at_plan(&self) {
        let Some(path) = self.plan else {
            return;
        };
        let mark = mark_at(self.rt, path);
        if self.has_read(mark) {
            return;
        }
        if let Ok(json) = plan_json(self.rt, self.alloc, path)
            && let Ok(json) = Arc::new(self.alloc, json)
        {
            self.kept_plan.lock(self.rt).keep(mark, Some(json));
        }
    }

    // Whether the plan was read from its file as it is now.
    fn has_read(&self, mark: Option<Mark>) -> bool {
        self.kept_plan.lock(self.rt).is_of(mark)
    }
}

impl<'a, R: Wait + Net + Clock> Source for Watch<'a, R> {
    // What a route may show, whatever the station answered.
    ghost shows = { λ watch route last found text. IsSeen route found text };

    // An answer is the station's own, or says why there is none.
    ghost tells = { λ watch line found text. Unit {0} };

    fn fill(&self, route: Route, last: &[u8], text: &mut Vec<u8>) -> Result<Found, AllocError> {
        if route == Route::Events {
            self.events.lock(self.rt).append_to(last, text)?;
            Ok(Found::Here)
        } else if route == Route::Windows {
            text.extend_from_slice(self.plan_json()?.as_slice())?;
            Ok(Found::Here)
        } else {
            let lines = self.status();
            push_status(self.alloc, route, text_of(&lines), text)
        }
    }

    fn command(&self, permit: Permit<'_>, text: &mut Vec<u8>) -> Result<Found, AllocError> {
        match self.ask(Asked::Passed(permit)) {
            Ok(answer) => {
                text.extend_from_slice(answer.as_slice())?;
                Ok(Found::Here)
            }
            Err(fault) => {
                text.extend_from_slice(fault.text().as_bytes())?;
                text.extend_from_slice(b"\n".as_slice())?;
                Ok(Found::Away)
            }
        }
    }
}
