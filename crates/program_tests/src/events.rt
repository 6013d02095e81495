use event_levels::Level;
use event_log::{LogFile, LogFiles, LogLines, LogQueue};
use kept_events::{Form, KEPT_LINES, KeptEvents};
use program_start::RuntimeFiles;
use std::alloc::{AllocError, Global};
use std::fs;
use std::rt::Files;
use std::sync::Wait;
use std::test::*;
use std::time::Clock;

fn push(alloc: Global, kept: &mut KeptEvents<'_>, number: usize) -> Result<(), AllocError> {
    let mut line = String::new(alloc);
    writeln!(line, "{number}")?;
    kept.push(Level::Detail, line.as_bytes())
}

// Adds two events more than there is room for, and before them one that matters.
fn fill(alloc: Global, kept: &mut KeptEvents<'_>) -> Result<(), AllocError> {
    kept.push(Level::Warning, b"{\"a\":1}\n")?;
    for number in 0..KEPT_LINES + 2 {
        push(alloc, kept, number)?;
    }
    Ok(())
}

// The last events are kept, as many as there is room for, and given after a word.
fn gives_last(kept: &KeptEvents<'_>, text: &mut Vec<u8>) -> Result<bool, AllocError> {
    kept.push_last(text, b"event ", Level::Detail, 2, Form::Plain)?;
    let is_last = text.as_slice() == b"event 1024\nevent 1025\n".as_slice();
    text.clear();
    kept.push_last(text, b"", Level::Detail, usize::MAX, Form::Plain)?;
    Ok(is_last && text.as_slice().starts_with(b"2\n3\n"))
}

// Those that matter are kept beside them, with their levels where these are requested.
fn gives_notable(kept: &KeptEvents<'_>, text: &mut Vec<u8>) -> Result<bool, AllocError> {
    kept.push_last(text, b"", Level::Info, KEPT_LINES, Form::Labelled)?;
    Ok(text.as_slice() == b"{\"a\":1,\"level\":\"warning\"}\n".as_slice())
}

fn keeps_last(alloc: Global) -> Result<bool, AllocError> {
    let mut kept = KeptEvents::new(alloc)?;
    fill(alloc, &mut kept)?;
    Ok(gives_last(&kept, &mut Vec::new(alloc))? && gives_notable(&kept, &mut Vec::new(alloc))?)
}

#[test]
fn kept(rt: HostRuntime) -> Result<(), Fail> {
    assert!(rt; keeps_last(rt.alloc())?);
    Ok(())
}

// Whether a log is failing, and how many events it wrote and lost.
fn state_of(log: &mut LogFile<HostRuntime>) -> (bool, u64, u64) {
    (log.is_failing(), log.written(), log.take_lost())
}

// Adds a line to what waits.
fn push_line(alloc: Global, log: &mut LogFile<HostRuntime>, line: &[u8]) -> Result<(), AllocError> {
    let mut lines = Vec::new(alloc);
    lines.extend_from_slice(line)?;
    log.take(&mut lines, 1);
    Ok(())
}

// The states of a log whose folder is made between two attempts. While it can't be written its lines wait, and are tried
// again a second later.
fn written(
    rt: &HostRuntime,
    log: &mut LogFile<HostRuntime>,
) -> Result<[(bool, u64, u64); 4], AllocError> {
    push_line(rt.alloc(), log, b"one\n")?;
    log.flush(rt, 1_000);
    let first = state_of(log);
    let _made = fs::create_dir(rt, "logs");
    log.flush(rt, 1_999);
    let second = state_of(log);
    log.flush(rt, 2_000);
    let third = state_of(log);
    push_line(rt.alloc(), log, b"two\n")?;
    log.flush(rt, 2_000);
    Ok([first, second, third, state_of(log)])
}

#[test]
fn logs(rt: HostRuntime) -> Result<(), Fail> {
    let path = String::from_str(rt.alloc(), "logs/events")?;
    let mut log = LogFile::new(rt.alloc(), path);
    assert!(rt;
        written(&rt, &mut log)? == [(true, 0, 0), (true, 0, 0), (false, 1, 0), (false, 2, 0)]
    );
    assert!(rt; fs::read_to_string(&rt, "logs/events")?.as_str() == "one\ntwo\n");
    Ok(())
}

// How many lines are left for a log, of so many octets each: somewhat more than there is room for.
const LEFT: usize = 140;

const LINE_OCTETS: usize = 64 * 1_024;

// Leaves lines for a log that nobody writes yet, and then writes them.
fn write_late<R: Wait + Clock + Files + AllocGlobal + Copy>(
    rt: &R,
    queue: &LogQueue,
) -> Result<(), AllocError> {
    let alloc = rt.alloc();
    let mut line = Vec::from_elem(alloc, b'a', LINE_OCTETS)?;
    line.extend_from_slice(b"}\n")?;
    let mut lines = LogLines::new(alloc, queue, Level::Info);
    for _ in 0..LEFT {
        lines.push(Level::Info, line.as_slice());
        lines.push(Level::Detail, line.as_slice());
        lines.leave(rt);
    }
    queue.close(rt);
    let path = String::from_str(alloc, "late")?;
    RuntimeFiles::new(*rt).write_log(rt, alloc, queue, path);
    Ok(())
}

// What has no room is lost, and the log's last line says how many events that was.
#[test]
fn loses(rt: HostRuntime) -> Result<(), Fail> {
    let queue = LogQueue::new(rt.alloc());
    write_late(&rt, &queue)?;
    let state = queue.state(&rt);
    let text = fs::read_to_string(&rt, "late")?;
    let (count, last) = (
        text.lines().count() as u64,
        text.lines().last().unwrap_or(""),
    );
    assert!(rt; state.lost > 0 && state.written.checked_add(state.lost) == Some(LEFT as u64));
    assert!(rt;
        count.checked_sub(1) == Some(state.written) && last.contains("\"kind\":\"lost\",\"count\":")
    );
    Ok(())
}
