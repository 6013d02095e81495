//! Puts files in the outbox.
use crate::asking::{Line, first_line};
use crate::fault::CtlFault;
use crate::following::ask_for_events;
use crate::items::Item;
use crate::known::{ask_for_known, user_for};
use crate::paths::{Folder, target_name, whole_path};
use crate::screen::Screen;
use crate::sent::{SentFiles, have_arrived, send_status, waits_for_room};
use crate::waiting::{now, wait_and_look, wait_for_events};
use ctl_views::{Page, Tone};
use ctl_words::{SendCommand, SendWords, has_long_name, send_command};
use std::alloc::{AllocError, Global};
use std::env::Env;
use std::io::Write;
use std::sync::Wait;
use std::time::Clock;

/// What is said of a file whose names don't fit into a command.
pub(crate) const LONG_NAME: &str = "its path or its name at the receiver has more than 255 octets";

// The user whose files are sent, and the folder in which the program runs.
#[derive(Drop)]
struct Origin {
    user: String,
    folder: Folder,
}

// The files that the server put in the outbox, and whether it took all of them.
#[derive(Drop)]
struct Queued<'a> {
    files: SentFiles<'a>,
    all_taken: bool,
}

/// Puts files in the outbox and, if asked to, waits for their ends. Returns the exit status.
pub(crate) fn send<R, W, E>(
    rt: &R,
    alloc: Global,
    screen: &mut Screen<W, E>,
    line: &mut Line,
    words: &SendWords<'_>,
    items: &[Item],
) -> Result<u8, CtlFault>
where
    R: Clock + Wait + Env + AllocGlobal,
    W: Write + Drop,
    E: Write + Drop,
{
    let known = ask_for_known(rt, alloc, line)?;
    let Some(user) = user_for(alloc, screen, words.remote, words.user, known)? else {
        return Ok(2);
    };
    let folder = Folder::of(rt, alloc, words.files.as_slice())?;
    let origin = Origin { user, folder };
    if words.wait {
        let status = ask_for_events(rt, alloc, screen, line, None, Some("info"))?;
        if status != 0 {
            return Ok(status);
        }
    }
    let queued = queue_all(rt, alloc, screen, line, words, &origin, items)?;
    let Queued { files, all_taken } = queued;
    let mut files = files;
    let is_reported = is_reported(words);
    if words.wait {
        wait_for_ends(rt, alloc, screen, line, words, &origin, &mut files)?;
    }
    let all_arrived = have_arrived(is_reported, files.files.as_slice());
    Ok(send_status(all_taken, words.wait, all_arrived))
}

// Puts each file in the outbox.
fn queue_all<'a, R, W, E>(
    rt: &R,
    alloc: Global,
    screen: &mut Screen<W, E>,
    line: &mut Line,
    words: &SendWords<'_>,
    origin: &Origin,
    items: &'a [Item],
) -> Result<Queued<'a>, CtlFault>
where
    R: Clock + Wait,
    W: Write + Drop,
    E: Write + Drop,
{
    let mut files = SentFiles::new(alloc);
    let mut all_taken = true;
    for item in items {
        match queue(rt, alloc, screen, line, words, origin, &mut files, item)? {
            Some(number) => files.add(item, number, words.retries)?,
            None => all_taken = false,
        }
    }
    Ok(Queued { files, all_taken })
}

// Puts a file in the outbox, and returns its number there; says why if that isn't done.
fn queue<R, W, E>(
    rt: &R,
    alloc: Global,
    screen: &mut Screen<W, E>,
    line: &mut Line,
    words: &SendWords<'_>,
    origin: &Origin,
    files: &mut SentFiles<'_>,
    item: &Item,
) -> Result<Option<u64>, CtlFault>
where
    R: Clock + Wait,
    W: Write + Drop,
    E: Write + Drop,
{
    let path = item.path.as_str();
    let Some(command) = command_for(alloc, words, origin, item)? else {
        complain_of(alloc, screen, path, LONG_NAME.as_bytes())?;
        return Ok(None);
    };
    let answer = ask_for_place(rt, alloc, screen, line, words, files, command.as_slice())?;
    let answer = first_line(answer.as_slice());
    let number = number_of(answer);
    match number {
        Some(number) => print_queued(alloc, screen, path, number)?,
        None => complain_of(alloc, screen, path, answer)?,
    }
    Ok(number)
}

// Waits until each file has ended, and prints a line for each end. A file that didn't arrive is put in the outbox again as
// often as the command line says.
fn wait_for_ends<R, W, E>(
    rt: &R,
    alloc: Global,
    screen: &mut Screen<W, E>,
    line: &mut Line,
    words: &SendWords<'_>,
    origin: &Origin,
    files: &mut SentFiles<'_>,
) -> Result<(), CtlFault>
where
    R: Clock + Wait,
    W: Write + Drop,
    E: Write + Drop,
{
    let is_reported = is_reported(words);
    let mut shown_at = now(rt);
    for _ in rt.forever() {
        if files.open == 0 {
            break;
        }
        shown_at = wait_and_look(rt, alloc, screen, line, is_reported, files, shown_at)?;
        if let Some((place, item)) = files.next_again() {
            match queue(rt, alloc, screen, line, words, origin, files, item)? {
                Some(number) => files.add_again(place, number)?,
                None => files.give_up(place),
            }
        }
    }
    screen.clear_progress();
    Ok(())
}

// The reply to the command that puts a file in the outbox. If the outbox is full, and ends of files are awaited anyway, waits
// for a place there.
fn ask_for_place<R, W, E>(
    rt: &R,
    alloc: Global,
    screen: &mut Screen<W, E>,
    line: &mut Line,
    words: &SendWords<'_>,
    files: &mut SentFiles<'_>,
    command: &[u8],
) -> Result<Vec<u8>, CtlFault>
where
    R: Clock + Wait,
    W: Write + Drop,
    E: Write + Drop,
{
    for _ in rt.forever() {
        let answer = line.ask(rt, command)?;
        if first_line(answer.as_slice()) != b"refused OutboxFull".as_slice()
            || !waits_for_room(words.wait, files.open)
        {
            return Ok(answer);
        }
        wait_for_events(rt, alloc, screen, line, is_reported(words), files)?;
    }
    Ok(Vec::new(alloc))
}

// Whether the receiver reports what became of a file.
fn is_reported(words: &SendWords<'_>) -> bool {
    words.class != 1 || words.is_closed
}

/// The number in a reply such as `queued 12`.
pub(crate) fn number_of(line: &[u8]) -> Option<u64> {
    let text = str::from_utf8(line).ok()?;
    text.strip_prefix("queued ")?.parse::<u64>().ok()
}

/// Prints that a file is in the outbox.
pub(crate) fn print_queued<W: Write + Drop, E: Write + Drop>(
    alloc: Global,
    screen: &mut Screen<W, E>,
    path: &str,
    number: u64,
) -> Result<(), CtlFault> {
    let text = format!(in alloc; "queued {number}: {path}")?;
    let mut page = Page::new(alloc);
    page.push_line(Tone::Plain, text.as_str())?;
    screen.print_page(alloc, &page)
}

fn complain_of<W: Write + Drop, E: Write + Drop>(
    alloc: Global,
    screen: &mut Screen<W, E>,
    path: &str,
    answer: &[u8],
) -> Result<(), CtlFault> {
    let answer = String::from_utf8_lossy(alloc, answer)?;
    let text = format!(in alloc; "cfdp_ctl: {path}: {answer}")?;
    screen.complain_line(alloc, text.as_str());
    Ok(())
}

// The command that puts a file in the outbox; `None` if its names are too long for one.
fn command_for(
    alloc: Global,
    words: &SendWords<'_>,
    origin: &Origin,
    item: &Item,
) -> Result<Option<Vec<u8>>, AllocError> {
    let source = whole_path(alloc, &origin.folder, item.path.as_str())?;
    let target = target_name(alloc, words.into, item.name.as_str())?;
    if has_long_name(source.as_str(), target.as_str()) {
        return Ok(None);
    }
    let send = SendCommand {
        user: origin.user.as_str(),
        class: words.class,
        remote: words.remote,
        source: source.as_str(),
        target: target.as_str(),
        is_closed: words.is_closed,
        is_urgent: words.is_urgent,
        alias: item.name.as_str(),
    };
    Ok(Some(send_command(alloc, &send)?))
}
