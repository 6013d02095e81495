//! Shows the transactions of a log, as lines for people or as JSON.
use crate::amounts::{push_octets, push_rate};
use crate::ends::End;
use crate::history::{Ended, Way};
use crate::page::{Page, Tone};
use crate::sums::Sum;
use crate::telling::push_at;
use json::Writer;
use station_names::member;
use std::alloc::{AllocError, Global};

/// Adds a line for a transaction that ended.
pub fn push_ended(alloc: Global, page: &mut Page, ended: &Ended) -> Result<(), AllocError> {
    let mut line = String::new(alloc);
    push_at(&mut line, ended.at.as_str())?;
    push_left(&mut line, peer_text(alloc, ended)?.as_str(), 10)?;
    push_left(&mut line, name_text(alloc, ended)?.as_str(), 16)?;
    push_right(&mut line, size_text(alloc, ended.size)?.as_str(), 10)?;
    push_right(&mut line, time_text(alloc, ended.took)?.as_str(), 10)?;
    push_right(&mut line, rate_text(alloc, ended)?.as_str(), 10)?;
    push_left(&mut line, ended.how.as_str(), 22)?;
    let (file, to) = (ended.file.as_str(), ended.to.as_str());
    write!(line, "  {file} to {to}")?;
    page.push_line(tone_of(ended.end), line.as_str())
}

fn tone_of(end: End) -> Tone {
    match end {
        End::Kept => Tone::Good,
        End::Unreported => Tone::Plain,
        End::Lost => Tone::Bad,
    }
}

// Adds two spaces, and a text at the left of at least `columns` columns.
fn push_left(line: &mut String, text: &str, columns: usize) -> Result<(), AllocError> {
    line.push_str("  ")?;
    line.push_str(text)?;
    push_spaces(line, columns.saturating_sub(text.len()))
}

// Adds two spaces, and a text at the right of at least `columns` columns.
fn push_right(line: &mut String, text: &str, columns: usize) -> Result<(), AllocError> {
    line.push_str("  ")?;
    push_spaces(line, columns.saturating_sub(text.len()))?;
    line.push_str(text)
}

fn push_spaces(line: &mut String, count: usize) -> Result<(), AllocError> {
    for _ in 0..count {
        line.push(' ')?;
    }
    Ok(())
}

fn peer_text(alloc: Global, ended: &Ended) -> Result<String, AllocError> {
    let way = match ended.way {
        Way::Sent => "to",
        Way::Received => "from",
        Way::Unknown => "with",
    };
    match ended.peer {
        Some(peer) => format!(in alloc; "{way} {peer}"),
        None => format!(in alloc; "{way} ?"),
    }
}

fn name_text(alloc: Global, ended: &Ended) -> Result<String, AllocError> {
    let (user, source, seq) = (ended.user.as_str(), ended.source, ended.seq);
    format!(in alloc; "{user} {source}.{seq}")
}

fn size_text(alloc: Global, size: Option<u64>) -> Result<String, AllocError> {
    let mut text = String::new(alloc);
    match size {
        Some(octets) => push_octets(&mut text, octets)?,
        None => text.push('-')?,
    }
    Ok(text)
}

// Seconds with three digits after the point.
fn time_text(alloc: Global, took: Option<u64>) -> Result<String, AllocError> {
    match took {
        Some(milliseconds) => {
            let (seconds, rest) = (milliseconds / 1000, milliseconds % 1000);
            format!(in alloc; "{seconds}.{rest:>03} s")
        }
        None => String::from_str(alloc, "-"),
    }
}

fn rate_text(alloc: Global, ended: &Ended) -> Result<String, AllocError> {
    let mut text = String::new(alloc);
    push_rate(&mut text, rate_of(ended))?;
    Ok(text)
}

// The octets a second of a file that arrived, rounded down.
fn rate_of(ended: &Ended) -> Option<u64> {
    match ended.end {
        End::Lost => None,
        End::Kept | End::Unreported => { ended.size?.saturating_mul(1000).checked_div(ended.took?) }
    }
}

/// The JSON of a transaction that ended, without a line feed.
pub fn ended_json(alloc: Global, ended: &Ended) -> Result<Vec<u8>, AllocError> {
    let mut writer = Writer::new(Vec::new(alloc));
    writer.begin_object()?;
    push_text(&mut writer, member::AT, ended.at.as_str())?;
    push_text(&mut writer, "way", way_word(ended.way))?;
    push_some(&mut writer, member::PEER, ended.peer)?;
    push_text(&mut writer, member::USER, ended.user.as_str())?;
    push_some(&mut writer, member::SOURCE, Some(ended.source))?;
    push_some(&mut writer, member::SEQ, Some(ended.seq))?;
    push_text(&mut writer, member::FILE, ended.file.as_str())?;
    push_text(&mut writer, member::TO, ended.to.as_str())?;
    push_some(&mut writer, member::SIZE, ended.size)?;
    push_some(&mut writer, "milliseconds", ended.took)?;
    push_some(&mut writer, "rate", rate_of(ended))?;
    push_text(&mut writer, "end", end_word(ended.end))?;
    push_text(&mut writer, "how", ended.how.as_str())?;
    writer.end_object()?;
    Ok(writer.into_inner())
}

fn push_text(writer: &mut Writer, name: &str, text: &str) -> Result<(), AllocError> {
    writer.key(name)?;
    writer.string(text)
}

fn push_some(writer: &mut Writer, name: &str, number: Option<u64>) -> Result<(), AllocError> {
    match number {
        Some(number) => {
            writer.key(name)?;
            writer.u64(number)
        }
        None => Ok(()),
    }
}

fn way_word(way: Way) -> &'static str {
    match way {
        Way::Sent => "sent",
        Way::Received => "received",
        Way::Unknown => "unknown",
    }
}

fn end_word(end: End) -> &'static str {
    match end {
        End::Kept => "kept",
        End::Unreported => "unreported",
        End::Lost => "failed",
    }
}

/// The sums over the transactions that were listed, and what else the logs have.
#[derive(Clone, Copy)]
pub struct Sums {
    pub sent: Sum,
    pub received: Sum,
    pub unknown: Sum,
    /// How many transactions have no end in the logs.
    pub open: u64,
    /// How many lines are not JSON objects.
    pub skipped: u64,
}

/// Adds the lines of the sums.
pub fn push_sums(alloc: Global, page: &mut Page, sums: &Sums) -> Result<(), AllocError> {
    push_sum(alloc, page, "sent", sums.sent)?;
    push_sum(alloc, page, "received", sums.received)?;
    if sums.unknown.ended > 0 {
        push_sum(alloc, page, "either way", sums.unknown)?;
    }
    if sums.open > 0 {
        let open = sums.open;
        page.push_line(
            Tone::Faint,
            format!(in alloc; "without an end: {open}")?.as_str(),
        )?;
    }
    if sums.skipped > 0 {
        let skipped = sums.skipped;
        let text = format!(in alloc; "lines that are not JSON objects, skipped: {skipped}")?;
        page.push_line(Tone::Bad, text.as_str())?;
    }
    Ok(())
}

fn push_sum(alloc: Global, page: &mut Page, name: &str, sum: Sum) -> Result<(), AllocError> {
    let (ended, lost) = (sum.ended, sum.lost);
    let mut line = format!(in alloc; "{name}: {ended}, failed: {lost}, octets of the others: ")?;
    push_octets(&mut line, sum.octets)?;
    page.push_line(Tone::Head, line.as_str())
}

/// The JSON of the sums, without a line feed.
pub fn sums_json(alloc: Global, sums: &Sums) -> Result<Vec<u8>, AllocError> {
    let mut writer = Writer::new(Vec::new(alloc));
    writer.begin_object()?;
    push_sum_members(&mut writer, "sent", sums.sent)?;
    push_sum_members(&mut writer, "received", sums.received)?;
    push_sum_members(&mut writer, "unknown", sums.unknown)?;
    push_some(&mut writer, "open", Some(sums.open))?;
    push_some(&mut writer, "skipped", Some(sums.skipped))?;
    writer.end_object()?;
    Ok(writer.into_inner())
}

fn push_sum_members(writer: &mut Writer, name: &str, sum: Sum) -> Result<(), AllocError> {
    writer.key(name)?;
    writer.begin_object()?;
    push_some(writer, "ended", Some(sum.ended))?;
    push_some(writer, "failed", Some(sum.lost))?;
    push_some(writer, "octets", Some(sum.octets))?;
    writer.end_object()
}
