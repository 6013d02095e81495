//! Sends the file of a transaction again.
ghost use Rattle.std.specs.Prelude.{◌≡◌};
ghost use Rattle.cfdp_ctl.specs.Resending.{by_sight, is_unchanged, verdict_of};

use crate::asking::{Line, first_line};
use crate::fault::CtlFault;
use crate::following::ask_for_events;
use crate::paths::base_name;
use crate::reasons::reason_of;
use crate::screen::Screen;
use crate::sending::{number_of, print_queued};
use ctl_views::{About, FileLine, moment_begun, read_file_line};
use ctl_words::{ResendWords, SendCommand, TransactionWord, send_command};
use std::alloc::{AllocError, Global};
use std::fs;
use std::fs::{File, Metadata};
use std::io::{BufRead, BufReader, Read, Write};
use std::rt::Files;
use std::sync::Wait;
use std::time::{Clock, UNIX_EPOCH};

// How many events a server keeps, and the most octets of a line of a log.
const KEPT: u64 = 1_024;

const LINE_OCTETS: u64 = 1_048_576;

/// What a server says of a transaction.
#[derive(Clone, Copy)]
pub(crate) enum Standing {
    /// It is under way.
    Going,
    /// It has ended, or the server has forgotten it.
    Over,
    /// Its file comes from another entity.
    Received,
}

/// A file as it was when it was read, or as it is now.
#[derive(Clone, Copy)]
pub(crate) struct Sight {
    pub(crate) size: u64,
    /// When it was read or written, in milliseconds since 1970.
    pub(crate) at: u64,
}

/// Whether a file is sent again.
#[derive(Clone, Copy)]
pub(crate) enum Verdict {
    Send,
    Going,
    Received,
    /// Nobody knows the file.
    Unknown,
    /// The file isn't there.
    Gone,
    /// The file isn't as it was when it was read.
    Changed,
}

/// Whether the file of a transaction is sent again, by how it was when it was read, and how it is now; `None` where
/// that isn't known, or where there is none.
pub(crate) fn verdict_of(standing: Standing, read: Option<Sight>, now: Option<Sight>) -> Verdict
    ensures { result ≡ verdict_of standing read now }
{
    match standing {
        Standing::Going => Verdict::Going,
        Standing::Received => Verdict::Received,
        Standing::Over => match read {
            Some(read) => by_sight(read, now),
            None => Verdict::Unknown,
        },
    }
}

fn by_sight(read: Sight, now: Option<Sight>) -> Verdict
    ensures { result ≡ by_sight read now }
{
    match now {
        Some(now) => {
            if is_unchanged(read, now) {
                Verdict::Send
            } else {
                Verdict::Changed
            }
        }
        None => Verdict::Gone,
    }
}

// Whether a file has its size, and wasn't written since it was read.
fn is_unchanged(read: Sight, now: Sight) -> bool
    ensures { result ≡ is_unchanged read now }
{
    read.size == now.size && now.at <= read.at
}

// What is known of a transaction.
#[derive(Drop)]
struct Known {
    asked: TransactionWord,
    standing: Standing,
    /// The file as it was read, if that is known.
    put: Option<FileLine>,
    /// The name that its receiver learned, if the server has it.
    alias: Option<String>,
}

/// Sends the file of a transaction again that has ended, and returns the exit status.
pub(crate) fn resend<R, W, E>(
    rt: &R,
    alloc: Global,
    screen: &mut Screen<W, E>,
    line: &mut Line,
    words: &ResendWords<'_>,
) -> Result<u8, CtlFault>
where
    R: Clock + Wait + Files,
    W: Write + Drop,
    E: Write + Drop,
{
    let mut known = Known {
        asked: words.transaction,
        standing: Standing::Over,
        put: None,
        alias: None,
    };
    for path in words.logs.as_slice() {
        if let Err(error) = learn_from_log(rt, alloc, &mut known, path) {
            complain(alloc, screen, path, reason_of(&error))?;
            return Ok(3);
        }
    }
    let status = ask_for_events(rt, alloc, screen, line, Some(KEPT), Some("info"))?;
    if status != 0 {
        return Ok(status);
    }
    let answer = line.ask(rt, b"status")?;
    learn_from_events(rt, alloc, line, &mut known)?;
    let lines = String::from_utf8_lossy(alloc, answer.as_slice())?;
    for text in lines.as_str().split('\n') {
        learn(alloc, &mut known, text)?;
    }
    match sendable(rt, alloc, screen, &known)? {
        Some(command) => queue(rt, alloc, screen, line, &known, command.as_slice()),
        None => Ok(3),
    }
}

// Learns from the events that the server has kept; they come before its reply to the next command.
fn learn_from_events<R: Clock + Wait>(
    rt: &R,
    alloc: Global,
    line: &mut Line,
    known: &mut Known,
) -> Result<(), CtlFault> {
    for _ in 0..u64::MAX {
        let Some(json) = line.next_event(rt, 0)? else {
            break;
        };
        let text = String::from_utf8_lossy(alloc, json.as_slice())?;
        learn(alloc, known, text.as_str())?;
    }
    Ok(())
}

// Learns from a log, of which the last put counts.
fn learn_from_log<R: Files>(
    rt: &R,
    alloc: Global,
    known: &mut Known,
    path: &str,
) -> std::io::Result<()> {
    let mut reader = BufReader::new(alloc, File::open(rt, path)?)?;
    let mut line = Vec::new(alloc);
    for _ in 0..u64::MAX {
        line.clear();
        if (&mut reader)
            .take(LINE_OCTETS)
            .read_until(b'\n', &mut line)?
            == 0
        {
            break;
        }
        let text = String::from_utf8_lossy(alloc, line.as_slice())?;
        learn(alloc, known, text.as_str())?;
    }
    Ok(())
}

// Learns from a line of a log or a status, or from an event.
fn learn(alloc: Global, known: &mut Known, text: &str) -> Result<(), AllocError> {
    let Some(found) = read_file_line(alloc, text)? else {
        return Ok(());
    };
    let own = found.transaction;
    if own.source != known.asked.source || own.seq != known.asked.seq {
        return Ok(());
    }
    match found.about {
        About::Put(_) => known.put = Some(found),
        About::Received => known.standing = Standing::Received,
        About::Sent(is_going) => {
            if is_going {
                known.standing = Standing::Going;
            }
            known.alias = Some(found.file);
        }
    }
    Ok(())
}

// The command that sends the file again; says why if it isn't to be sent.
fn sendable<R, W, E>(
    rt: &R,
    alloc: Global,
    screen: &mut Screen<W, E>,
    known: &Known,
) -> Result<Option<Vec<u8>>, CtlFault>
where
    R: Files,
    W: Write + Drop,
    E: Write + Drop,
{
    let (read, now) = match &known.put {
        Some(put) => (read_at(alloc, put)?, sight_at(rt, put.file.as_str())),
        None => (None, None),
    };
    let verdict = verdict_of(known.standing, read, now);
    if let (Verdict::Send, Some(put)) = (verdict, &known.put) {
        return Ok(Some(command_for(alloc, known, put)?));
    }
    let (source, seq) = (known.asked.source, known.asked.seq);
    let mut about = format!(in alloc; "{source}.{seq}")?;
    if let (Verdict::Gone | Verdict::Changed, Some(put)) = (verdict, &known.put) {
        let file = put.file.as_str();
        write!(about, ": {file}")?;
    }
    complain(alloc, screen, about.as_str(), words_of(verdict))?;
    Ok(None)
}

fn words_of(verdict: Verdict) -> &'static str {
    match verdict {
        Verdict::Send => "it can be sent again",
        Verdict::Going => "it is still under way",
        Verdict::Received => "its file was received here, and not sent",
        Verdict::Unknown =>
            "its file isn't known: neither the server's last events nor a log (--log FILE) has its put",
        Verdict::Gone => "the file is gone",
        Verdict::Changed =>
            "the file changed since it was sent; send puts it into the outbox as it is now",
    }
}

// How a file was when it was read: as its put has it.
fn read_at(alloc: Global, put: &FileLine) -> Result<Option<Sight>, AllocError> {
    match (put.about, moment_begun(alloc, "1970-01-01")?) {
        (About::Put(moment), Some(beginning)) => Ok(Some(Sight {
            size: put.size,
            at: moment.saturating_sub(beginning),
        })),
        _ => Ok(None),
    }
}

// How a file is now; `None` if there is no plain file.
fn sight_at<R: Files>(rt: &R, path: &str) -> Option<Sight> {
    match fs::metadata(rt, path) {
        Ok(metadata) if metadata.is_file() => Some(Sight {
            size: metadata.len(),
            at: written_at(&metadata),
        }),
        _ => None,
    }
}

// When a file was written, in milliseconds since 1970.
fn written_at(metadata: &Metadata) -> u64 {
    match metadata.modified() {
        Ok(time) => match time.duration_since(UNIX_EPOCH) {
            Ok(since) => u64::try_from(since.as_millis()).unwrap_or(u64::MAX),
            Err(_) => 0,
        },
        Err(_) => u64::MAX,
    }
}

// The command that sends a file as it was sent before. The receiver learns the name that it learned, or, if the server
// has forgotten that, the file's name without its folder.
fn command_for(alloc: Global, known: &Known, put: &FileLine) -> Result<Vec<u8>, AllocError> {
    let file = put.file.as_str();
    let alias = match &known.alias {
        Some(alias) => alias.as_str(),
        None => base_name(file),
    };
    let send = SendCommand {
        user: put.user.as_str(),
        class: put.class,
        remote: put.remote,
        source: file,
        target: put.to.as_str(),
        is_closed: false,
        is_urgent: false,
        alias,
    };
    send_command(alloc, &send)
}

// Puts the file in the outbox, and returns the exit status.
fn queue<R, W, E>(
    rt: &R,
    alloc: Global,
    screen: &mut Screen<W, E>,
    line: &mut Line,
    known: &Known,
    command: &[u8],
) -> Result<u8, CtlFault>
where
    R: Clock + Wait,
    W: Write + Drop,
    E: Write + Drop,
{
    let path = match &known.put {
        Some(put) => put.file.as_str(),
        None => "",
    };
    let answer = line.ask(rt, command)?;
    let answer = first_line(answer.as_slice());
    match number_of(answer) {
        Some(number) => {
            print_queued(alloc, screen, path, number)?;
            Ok(0)
        }
        None => {
            let words = String::from_utf8_lossy(alloc, answer)?;
            complain(alloc, screen, path, words.as_str())?;
            Ok(3)
        }
    }
}

fn complain<W: Write + Drop, E: Write + Drop>(
    alloc: Global,
    screen: &mut Screen<W, E>,
    about: &str,
    why: &str,
) -> Result<(), CtlFault> {
    let text = format!(in alloc; "cfdp_ctl: {about}: {why}")?;
    screen.complain_line(alloc, text.as_str());
    Ok(())
}
