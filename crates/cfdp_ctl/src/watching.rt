//! Sends the files that come into a folder.
use crate::asking::{Line, first_line, line_again, may_return};
use crate::fault::CtlFault;
use crate::following::ask_for_events;
use crate::hold::Hold;
use crate::known::{ask_for_known, user_for};
use crate::paths::{Folder, target_name, whole_path};
use crate::reasons::reason_of;
use crate::screen::Screen;
use crate::sending::{LONG_NAME, number_of, print_queued};
use crate::sent::{Fate, has_arrived, send_status};
use ctl_folder::{
    AtEnd, FAILED, Given, HotFile, HotFiles, KeptFile, KeptFiles, Listing, Mark, Place, SENT,
    Sight, Turn, at_end, keep_file, list, make_folders, mark_at, path_being_read, take_back,
    was_sent,
};
use ctl_views::{Event, Page, Step, Tone, Transaction, UnderWay, read_event, read_under_way};
use ctl_words::{SendCommand, WatchWords, has_long_name, send_command};
use std::alloc::{AllocError, Global};
use std::env::Env;
use std::fs;
use std::fs::File;
use std::io::Write;
use std::net::Net;
use std::rt::Files;
use std::sync::Wait;
use std::time::{Clock, Duration};

// How many milliseconds to wait for an event before looking at the folder again.
const TURN_MILLIS: u64 = 500;

// How many events to handle before looking at the folder again.
const EVENTS: usize = 1_024;

// The file in the folder that is locked while the folder is watched.
const LOCK: &str = ".cfdp_ctl.lock";

/// Whether a path leads to a folder; prints a line if it doesn't.
pub(crate) fn is_folder<R, W, E>(
    rt: &R,
    alloc: Global,
    screen: &mut Screen<W, E>,
    path: &str,
) -> Result<bool, CtlFault>
where
    R: Files,
    W: Write + Drop,
    E: Write + Drop,
{
    let reason = match fs::metadata(rt, path) {
        Ok(metadata) if metadata.is_dir() => return Ok(true),
        Ok(_) => "it is not a folder",
        Err(error) => reason_of(&error),
    };
    complain(alloc, screen, path, reason)?;
    Ok(false)
}

// What is known while a folder is watched.
#[derive(Drop)]
struct Watching<'a> {
    words: WatchWords<'a>,
    /// The absolute path of the folder.
    folder: String,
    user: String,
    files: HotFiles,
    /// The files that were moved to `sent` a short time ago.
    kept: KeptFiles,
    /// The locked file, which keeps others from watching the folder.
    lock: File,
    /// Whether each file so far has arrived.
    all_arrived: bool,
    /// Whether names that aren't UTF-8 were reported.
    told_of_odd: bool,
}

/// Sends each file that comes into the folder, and moves it once it has ended. Waits for the server if it goes away.
/// With `once`, returns the exit status once no file is left.
pub(crate) fn watch<R, W, E>(
    rt: &R,
    alloc: Global,
    screen: &mut Screen<W, E>,
    line: &mut Line,
    path: &str,
    words: WatchWords<'_>,
) -> Result<u8, CtlFault>
where
    R: Net + Clock + Wait + Env + Files + Hold + AllocGlobal + Copy + Drop,
    W: Write + Drop,
    E: Write + Drop,
{
    let folder = folder_for(rt, alloc, words)?;
    let Some(lock) = lock_of(rt, alloc, screen, folder.as_str())? else {
        return Ok(3);
    };
    let mut watching = watching_in(alloc, words, folder, lock);
    let mut is_begun = false;
    for _ in rt.forever() {
        let done = if is_begun {
            turn(rt, alloc, screen, line, &mut watching)
        } else {
            is_begun = true;
            begin(rt, alloc, screen, line, &mut watching)
        };
        match done {
            Ok(None) => {}
            Ok(Some(status)) => return Ok(status),
            Err(CtlFault::Station(fault)) if may_return(fault) => {
                *line = line_again(rt, alloc, screen, path, fault)?;
                is_begun = false;
            }
            Err(fault) => return Err(fault),
        }
    }
    Ok(0)
}

// What is known before the folder was looked at.
fn watching_in<'a>(
    alloc: Global,
    words: WatchWords<'a>,
    folder: String,
    lock: File,
) -> Watching<'a> {
    Watching {
        words,
        folder,
        user: String::new(alloc),
        files: HotFiles::new(alloc),
        kept: KeptFiles::new(alloc, words.delete),
        lock,
        all_arrived: true,
        told_of_odd: false,
    }
}

// The absolute path of the folder.
fn folder_for<R: Env + AllocGlobal>(
    rt: &R,
    alloc: Global,
    words: WatchWords<'_>,
) -> Result<String, CtlFault> {
    let current = Folder::of(rt, alloc, &[words.folder])?;
    let path = whole_path(alloc, &current, words.folder)?;
    let folder = match path.as_str().trim_end_matches('/') {
        "" => "/",
        trimmed => trimmed,
    };
    Ok(String::from_str(alloc, folder)?)
}

// Locks the folder; prints a line if that can't be done.
fn lock_of<R, W, E>(
    rt: &R,
    alloc: Global,
    screen: &mut Screen<W, E>,
    folder: &str,
) -> Result<Option<File>, CtlFault>
where
    R: Hold,
    W: Write + Drop,
    E: Write + Drop,
{
    let path = format!(in alloc; "{folder}/{LOCK}")?;
    let reason = match rt.hold(path.as_str()) {
        Ok(Some(file)) => return Ok(Some(file)),
        Ok(None) => "another program watches this folder",
        Err(error) => reason_of(&error),
    };
    complain(alloc, screen, folder, reason)?;
    Ok(None)
}

// Begins with a server: finds the user, follows its events, and learns which files of the folder it has. Returns an
// exit status if that ends the program.
fn begin<R, W, E>(
    rt: &R,
    alloc: Global,
    screen: &mut Screen<W, E>,
    line: &mut Line,
    watching: &mut Watching<'_>,
) -> Result<Option<u8>, CtlFault>
where
    R: Clock + Wait + Files + AllocGlobal + Copy + Drop,
    W: Write + Drop,
    E: Write + Drop,
{
    let known = ask_for_known(rt, alloc, line)?;
    let words = watching.words;
    let Some(user) = user_for(alloc, screen, words.remote, words.user, known)? else {
        return Ok(Some(2));
    };
    watching.user = user;
    if let Err(error) = make_folders(rt, alloc, watching.folder.as_str()) {
        complain(alloc, screen, watching.folder.as_str(), reason_of(&error))?;
        return Ok(Some(3));
    }
    let status = ask_for_events(rt, alloc, screen, line, None, Some("info"))?;
    if status != 0 {
        return Ok(Some(status));
    }
    if !look(rt, alloc, screen, watching)? {
        return Ok(Some(3));
    }
    let answer = line.ask(rt, b"status")?;
    learn(alloc, watching, answer.as_slice())?;
    Ok(None)
}

// Learns from a status which files of the folder the server has. A line of a file being read comes after that of its place.
fn learn(alloc: Global, watching: &mut Watching<'_>, answer: &[u8]) -> Result<(), AllocError> {
    watching.files.forget_places();
    let lines = String::from_utf8_lossy(alloc, answer)?;
    for line in lines.as_str().split('\n') {
        if let Some(found) = read_under_way(alloc, line)? {
            learn_of(watching, &found);
        }
        if let Some(path) = path_being_read(alloc, line)?
            && let Some(name) = name_in(watching.folder.as_str(), path.as_str())
        {
            watching.files.find_read(name);
        }
    }
    Ok(())
}

// Learns where the server has a file, if the file is one of the folder. One that waits is known by its path, and one that is
// being sent by its name, which is all that its receiver learns.
fn learn_of(watching: &mut Watching<'_>, found: &UnderWay) {
    if found.remote != watching.words.remote {
        return;
    }
    match found.place {
        ctl_views::Place::Queued(number) => {
            if let Some(name) = name_in(watching.folder.as_str(), found.file.as_str()) {
                watching.files.find(name, Place::Queued(number), false);
            }
        }
        ctl_views::Place::Sent(Transaction { source, seq }) => {
            let place = Place::Sent(source, seq);
            watching.files.find(found.file.as_str(), place, true);
        }
    }
}

// The name of a file in a folder, by its path.
fn name_in<'a>(folder: &str, path: &'a str) -> Option<&'a str> {
    path.strip_prefix(folder)?.strip_prefix("/")
}

// Handles the events that came, looks at the folder, and sends what is ready. Returns the exit status once no file is
// left, if that ends the program, or if the folder can't be read.
fn turn<R, W, E>(
    rt: &R,
    alloc: Global,
    screen: &mut Screen<W, E>,
    line: &mut Line,
    watching: &mut Watching<'_>,
) -> Result<Option<u8>, CtlFault>
where
    R: Clock + Wait + Files + AllocGlobal + Copy + Drop,
    W: Write + Drop,
    E: Write + Drop,
{
    take_events(rt, alloc, screen, line, watching)?;
    look_after(rt, alloc, screen, watching)?;
    if !look(rt, alloc, screen, watching)? {
        return Ok(Some(3));
    }
    send_ready(rt, alloc, screen, line, watching)?;
    if watching.words.once && !watching.files.is_busy() && !watching.kept.is_busy() {
        return Ok(Some(send_status(true, true, watching.all_arrived)));
    }
    Ok(None)
}

// The moment in milliseconds.
fn now<R: Clock>(rt: &R) -> u64 {
    let now = rt.monotonic().unwrap_or(Duration::ZERO);
    u64::try_from(now.as_millis()).unwrap_or(u64::MAX)
}

// Looks at the folder; false if it can't be read.
fn look<R, W, E>(
    rt: &R,
    alloc: Global,
    screen: &mut Screen<W, E>,
    watching: &mut Watching<'_>,
) -> Result<bool, CtlFault>
where
    R: Clock + Files + AllocGlobal + Copy + Drop,
    W: Write + Drop,
    E: Write + Drop,
{
    match list(rt, alloc, watching.folder.as_str()) {
        Ok(Listing { files, has_odd }) => {
            if has_odd && !watching.told_of_odd {
                watching.told_of_odd = true;
                complain(
                    alloc,
                    screen,
                    watching.folder.as_str(),
                    "a file whose name isn't UTF-8 is left alone",
                )?;
            }
            watching.files.look(files, now(rt))?;
            Ok(true)
        }
        Err(error) => {
            complain(alloc, screen, watching.folder.as_str(), reason_of(&error))?;
            Ok(false)
        }
    }
}

// Looks at the files that were moved a short time ago. One that changed since the server got it is moved back.
fn look_after<R, W, E>(
    rt: &R,
    alloc: Global,
    screen: &mut Screen<W, E>,
    watching: &mut Watching<'_>,
) -> Result<(), CtlFault>
where
    R: Clock + Files,
    W: Write + Drop,
    E: Write + Drop,
{
    for file in watching.kept.look(rt, now(rt))? {
        let (name, path) = (file.name.as_str(), file.path.as_str());
        match take_back(rt, alloc, watching.folder.as_str(), name, path) {
            Ok(()) => complain(
                alloc,
                screen,
                name,
                "it changed since it was sent, and is sent again",
            )?,
            Err(error) => {
                watching.all_arrived = false;
                let reason = reason_of(&error);
                let text = format!(in alloc;
                    "it changed since it was sent, and can't be moved back: {reason}"
                )?;
                complain(alloc, screen, name, text.as_str())?;
            }
        }
    }
    Ok(())
}

// Handles the events that came, or the next one that comes soon.
fn take_events<R, W, E>(
    rt: &R,
    alloc: Global,
    screen: &mut Screen<W, E>,
    line: &mut Line,
    watching: &mut Watching<'_>,
) -> Result<(), CtlFault>
where
    R: Clock + Wait + Files,
    W: Write + Drop,
    E: Write + Drop,
{
    let mut patience = TURN_MILLIS;
    for _ in 0..EVENTS {
        let Some(json) = line.next_event(rt, patience)? else {
            break;
        };
        patience = 0;
        let text = String::from_utf8_lossy(alloc, json.as_slice())?;
        if let Some(event) = read_event(alloc, text.as_str())? {
            take_event(rt, alloc, screen, watching, &event)?;
        }
    }
    Ok(())
}

fn take_event<R, W, E>(
    rt: &R,
    alloc: Global,
    screen: &mut Screen<W, E>,
    watching: &mut Watching<'_>,
    event: &Event,
) -> Result<(), CtlFault>
where
    R: Clock + Files,
    W: Write + Drop,
    E: Write + Drop,
{
    let (ended, fate) = match event.step {
        Step::Started(number) => {
            if let Some(Transaction { source, seq }) = event.transaction {
                watching.files.start(number, source, seq);
            }
            return Ok(());
        }
        Step::Unsent(number) => (watching.files.at(Place::Queued(number))?, Fate::Unsent),
        Step::Ended(end) => (file_of(watching, event.transaction)?, Fate::Ended(end)),
        Step::Other => return Ok(()),
    };
    let Some((name, file)) = ended else {
        return Ok(());
    };
    let is_reported = watching.words.class != 1;
    let (head, words) = (event.head.as_str(), event.words.as_str());
    let text = format!(in alloc; "{head} {words}\n")?;
    let done = Done {
        name: name.as_str(),
        given: file.given,
        is_renamed: file.is_renamed,
        turn: turn_of(is_reported, fate),
        words,
        reason: text.as_str(),
    };
    finish(rt, alloc, screen, watching, done)
}

// The file of a transaction, and its name.
fn file_of(
    watching: &Watching<'_>,
    transaction: Option<Transaction>,
) -> Result<Option<(String, HotFile)>, AllocError> {
    match transaction {
        Some(Transaction { source, seq }) => watching.files.at(Place::Sent(source, seq)),
        None => Ok(None),
    }
}

// How a file's turn ended.
fn turn_of(is_reported: bool, fate: Fate) -> Turn {
    match fate {
        Fate::Unsent => Turn::Unread,
        _ if has_arrived(is_reported, fate) => Turn::Arrived,
        _ => Turn::Failed,
    }
}

// A file that has ended.
#[derive(Clone, Copy)]
struct Done<'a> {
    name: &'a str,
    given: Given,
    is_renamed: bool,
    turn: Turn,
    /// What is printed about it.
    words: &'a str,
    /// What is written beside it, if it didn't arrive.
    reason: &'a str,
}

// Moves a file that has ended. One that changed meanwhile, or of which nobody knows that, stays and is sent again.
fn finish<R, W, E>(
    rt: &R,
    alloc: Global,
    screen: &mut Screen<W, E>,
    watching: &mut Watching<'_>,
    done: Done<'_>,
) -> Result<(), CtlFault>
where
    R: Clock + Files,
    W: Write + Drop,
    E: Write + Drop,
{
    print_end(alloc, screen, done)?;
    let path = path_in(alloc, watching, done.name)?;
    let seen = mark_at(rt, path.as_str());
    match at_end(done.given, seen, done.turn, done.is_renamed) {
        AtEnd::Again => {
            complain(alloc, screen, done.name, why_again(done))?;
            watching.files.send_again(done.name);
            Ok(())
        }
        AtEnd::ToSent => keep_sent(rt, alloc, screen, watching, done.name, seen),
        AtEnd::ToFailed => keep_failed(rt, alloc, screen, watching, done),
    }
}

fn path_in(alloc: Global, watching: &Watching<'_>, name: &str) -> Result<String, AllocError> {
    let folder = watching.folder.as_str();
    format!(in alloc; "{folder}/{name}")
}

fn why_again(done: Done<'_>) -> &'static str {
    match (done.given, done.turn) {
        (Given::Unseen, _) => "nobody saw how it was when it was read, so it is sent again",
        (Given::Seen(_), Turn::Unread) if done.is_renamed =>
            "it was renamed while it waited, and is sent again",
        (Given::Seen(_), _) => "it changed or went while it was sent",
    }
}

// Moves a file that has arrived to `sent`, and looks at it there for a while.
fn keep_sent<R, W, E>(
    rt: &R,
    alloc: Global,
    screen: &mut Screen<W, E>,
    watching: &mut Watching<'_>,
    name: &str,
    seen: Option<Mark>,
) -> Result<(), CtlFault>
where
    R: Clock + Files,
    W: Write + Drop,
    E: Write + Drop,
{
    match keep_file(rt, alloc, watching.folder.as_str(), name, SENT, None) {
        Ok(path) => {
            watching.files.forget(name);
            if let Some(mark) = seen {
                let since = now(rt);
                let name = String::from_str(alloc, name)?;
                let sight = Sight { mark, since };
                watching.kept.add(KeptFile { name, path, sight })?;
            }
            Ok(())
        }
        Err(error) => leave(alloc, screen, watching, name, reason_of(&error)),
    }
}

// Moves a file that didn't arrive to `failed`.
fn keep_failed<R, W, E>(
    rt: &R,
    alloc: Global,
    screen: &mut Screen<W, E>,
    watching: &mut Watching<'_>,
    done: Done<'_>,
) -> Result<(), CtlFault>
where
    R: Files,
    W: Write + Drop,
    E: Write + Drop,
{
    watching.all_arrived = false;
    let folder = watching.folder.as_str();
    match keep_file(rt, alloc, folder, done.name, FAILED, Some(done.reason)) {
        Ok(_) => {
            watching.files.forget(done.name);
            Ok(())
        }
        Err(error) => leave(alloc, screen, watching, done.name, reason_of(&error)),
    }
}

// Leaves a file where it is, since it can't be moved.
fn leave<W: Write + Drop, E: Write + Drop>(
    alloc: Global,
    screen: &mut Screen<W, E>,
    watching: &mut Watching<'_>,
    name: &str,
    reason: &str,
) -> Result<(), CtlFault> {
    let text = format!(in alloc; "it can't be moved away, and isn't sent again: {reason}")?;
    complain(alloc, screen, name, text.as_str())?;
    watching.files.refuse(name);
    Ok(())
}

fn print_end<W: Write + Drop, E: Write + Drop>(
    alloc: Global,
    screen: &mut Screen<W, E>,
    done: Done<'_>,
) -> Result<(), CtlFault> {
    let tone = match done.turn {
        Turn::Arrived => Tone::Good,
        Turn::Failed | Turn::Unread => Tone::Bad,
    };
    let mut page = Page::new(alloc);
    page.push(Tone::Plain, done.name)?;
    page.push(Tone::Plain, ": ")?;
    page.push_line(tone, done.words)?;
    screen.print_page(alloc, &page)
}

// Sends the files that are ready, in order, as long as the outbox takes them.
fn send_ready<R, W, E>(
    rt: &R,
    alloc: Global,
    screen: &mut Screen<W, E>,
    line: &mut Line,
    watching: &mut Watching<'_>,
) -> Result<(), CtlFault>
where
    R: Clock + Wait + Files,
    W: Write + Drop,
    E: Write + Drop,
{
    for _ in rt.forever() {
        let Some((name, mark)) = watching.files.next(now(rt))? else {
            break;
        };
        if was_sent(rt, alloc, watching.folder.as_str(), name.as_str(), mark)? {
            complain(
                alloc,
                screen,
                name.as_str(),
                "it is in sent already, and isn't sent again",
            )?;
            watching.files.refuse(name.as_str());
            continue;
        }
        let ready = Ready {
            name: name.as_str(),
            mark,
        };
        if !send_one(rt, alloc, screen, line, watching, ready)? {
            break;
        }
    }
    Ok(())
}

// A file that is ready to be sent, and how it was seen.
#[derive(Clone, Copy)]
struct Ready<'a> {
    name: &'a str,
    mark: Mark,
}

// Puts a file in the outbox; false if that has to wait.
fn send_one<R, W, E>(
    rt: &R,
    alloc: Global,
    screen: &mut Screen<W, E>,
    line: &mut Line,
    watching: &mut Watching<'_>,
    ready: Ready<'_>,
) -> Result<bool, CtlFault>
where
    R: Clock + Wait + Files,
    W: Write + Drop,
    E: Write + Drop,
{
    let Ready { name, mark } = ready;
    let source = path_in(alloc, watching, name)?;
    let target = target_name(alloc, watching.words.into, name)?;
    if has_long_name(source.as_str(), target.as_str()) {
        refuse(rt, alloc, screen, watching, ready, LONG_NAME)?;
        return Ok(true);
    }
    let command = command_for(alloc, watching, name, source.as_str(), target.as_str())?;
    let answer = line.ask(rt, command.as_slice())?;
    let answer = first_line(answer.as_slice());
    if let Some(number) = number_of(answer) {
        watching.files.give(name, Place::Queued(number));
        print_queued(alloc, screen, name, number)?;
        return Ok(true);
    }
    if has_to_wait(answer) {
        return Ok(false);
    }
    let words = String::from_utf8_lossy(alloc, answer)?;
    refuse(rt, alloc, screen, watching, ready, words.as_str())?;
    Ok(true)
}

// Moves a file to `failed` that the server refuses.
fn refuse<R, W, E>(
    rt: &R,
    alloc: Global,
    screen: &mut Screen<W, E>,
    watching: &mut Watching<'_>,
    ready: Ready<'_>,
    words: &str,
) -> Result<(), CtlFault>
where
    R: Clock + Files,
    W: Write + Drop,
    E: Write + Drop,
{
    let text = format!(in alloc; "{words}\n")?;
    let done = Done {
        name: ready.name,
        given: Given::Seen(ready.mark),
        is_renamed: false,
        turn: Turn::Failed,
        words,
        reason: text.as_str(),
    };
    finish(rt, alloc, screen, watching, done)
}

// Whether the same command may be taken later.
fn has_to_wait(answer: &[u8]) -> bool {
    answer == b"refused OutboxFull".as_slice()
        || answer == b"refused 12 NoMemory".as_slice()
        || answer == b"outbox fault".as_slice()
}

// The command that puts a file in the outbox. The receiver learns no folder of this machine.
fn command_for(
    alloc: Global,
    watching: &Watching<'_>,
    name: &str,
    source: &str,
    target: &str,
) -> Result<Vec<u8>, AllocError> {
    let send = SendCommand {
        user: watching.user.as_str(),
        class: watching.words.class,
        remote: watching.words.remote,
        source,
        target,
        is_closed: false,
        is_urgent: false,
        alias: name,
    };
    send_command(alloc, &send)
}

fn complain<W: Write + Drop, E: Write + Drop>(
    alloc: Global,
    screen: &mut Screen<W, E>,
    path: &str,
    reason: &str,
) -> Result<(), CtlFault> {
    let text = format!(in alloc; "cfdp_ctl: {path}: {reason}")?;
    screen.complain_line(alloc, text.as_str());
    Ok(())
}
