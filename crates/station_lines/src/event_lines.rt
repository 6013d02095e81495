//! The lines of events. Followers get each after the word `event` and a space, which these functions don't write.
ghost use Rattle.std.specs.Prelude.{◌≡◌, ◌++◌, OnErr, OnOk, string_bytes};
ghost use Rattle.std.specs.Option.{option_copied};
ghost use Rattle.station_lines.specs.EventLines.{reason_members, head_members, start_line, indication_line, said_members, metadata_members, put_line, put_head, put_file, queued_members, unsent_line, unsent_members, detail_members, stored_line, stored_status, refused_line, hold_line, planned_hold_line, release_line, about_remote_line, unparked_line, skipped_line, skipped_members, command_line, command_members, asker_members, journal_full_line, journal_full_members, lost_line, end_line, plain_line};

use crate::event::{CommandEvent, EventHead, IndicationEvent, PutEvent, SkippedEvent, UnsentEvent};
use crate::line::Line;
use crate::members::{
    RefusedCase, case_members, class_number, datagram_members, finished_members, key_members,
};
use crate::moment::Moment;
use answer_texts::{indication_name, phase_name, status_name};
use cfdp_types::{EntityId, FileStatus, Messages, Octets, TxnKey};
use indications::Indication;
use station_names::{kind, member};
use std::alloc::{AllocError, Global};

fn head_members(line: &mut Line, head: EventHead, kind: &str) -> Result<(), AllocError>
    ensures { OnOk result (line.new ≡ line.old ++ head_members head kind.now) }
{
    line.moment(member::AT, head.at)?;
    line.number(member::NUMBER, head.number)?;
    line.text(member::KIND, kind)
}

/// Adds the line of a server's start: its entity and its version.
pub fn push_start_event(
    alloc: Global,
    text: &mut String,
    head: EventHead,
    id: EntityId,
    version: &str,
) -> Result<(), AllocError>
    ensures added { OnOk result (string_bytes text.new ≡ string_bytes text.old ++ start_line head id version.now) }
    ensures kept { OnErr result (string_bytes text.new ≡ string_bytes text.old) }
{
    let mut line = Line::begin(alloc)?;
    head_members(&mut line, head, kind::START)?;
    line.number(member::ID, id.0)?;
    line.text(member::VERSION, version)?;
    line.end(text)
}

/// Adds the line of an indication.
pub fn push_indication_event(
    alloc: Global,
    text: &mut String,
    head: EventHead,
    event: &IndicationEvent<'_>,
) -> Result<(), AllocError>
    ensures added { OnOk result (string_bytes text.new ≡ string_bytes text.old ++ indication_line head event.entry.now) }
    ensures kept { OnErr result (string_bytes text.new ≡ string_bytes text.old) }
{
    let mut line = Line::begin(alloc)?;
    head_members(&mut line, head, kind::INDICATION)?;
    line.text(member::USER, event.user)?;
    key_members(&mut line, event.key)?;
    line.text(member::NAME, indication_name(event.indication))?;
    said_members(&mut line, event.indication)?;
    line.end(text)
}

// An indication's members, after its name.
fn said_members(line: &mut Line, said: &Indication) -> Result<(), AllocError>
    ensures { OnOk result (line.new ≡ line.old ++ said_members said.now) }
{
    match said {
        Indication::Transaction | Indication::EofSent | Indication::EofRecv => Ok(()),
        Indication::TransactionFinished {
            condition,
            delivery,
            status,
        } => finished_members(line, *condition, *delivery, *status),
        Indication::MetadataRecv(metadata) => {
            let metadata = metadata.get();
            metadata_members(
                line,
                metadata.source,
                metadata.size,
                &metadata.source_name,
                &metadata.destination_name,
                &metadata.messages,
            )
        }
        Indication::FileSegmentRecv { offset, length } => {
            line.number(member::OFFSET, u64::from(*offset))?;
            line.number(member::LENGTH, u64::from(*length))
        }
        Indication::Suspended { condition } => line.number(
            member::CONDITION,
            u64::from(condition.code()),
        ),
        Indication::Resumed { progress } => line.number(member::PROGRESS, u64::from(*progress)),
        Indication::Report { phase, progress } => {
            line.text(member::PHASE, phase_name(*phase))?;
            line.number(member::PROGRESS, u64::from(*progress))
        }
        Indication::Fault {
            condition,
            progress,
        }
        | Indication::Abandoned {
            condition,
            progress,
        } => {
            line.number(member::CONDITION, u64::from(condition.code()))?;
            line.number(member::PROGRESS, u64::from(*progress))
        }
    }
}

fn metadata_members(
    line: &mut Line,
    source: EntityId,
    size: u64,
    source_name: &Octets,
    destination_name: &Octets,
    messages: &Messages,
) -> Result<(), AllocError>
    ensures { OnOk result (line.new
        ≡ line.old ++ metadata_members source size source_name.now destination_name.now messages.now) }
{
    line.number(member::ORIGIN, source.0)?;
    line.number(member::SIZE, size)?;
    line.octets(member::FILE, source_name.as_slice())?;
    line.octets(member::TO, destination_name.as_slice())?;
    line.hexes(member::MESSAGES, messages.as_slice())
}

/// Adds the line of a Put.
pub fn push_put_event(
    alloc: Global,
    text: &mut String,
    head: EventHead,
    put: &PutEvent<'_>,
) -> Result<(), AllocError>
    ensures added { OnOk result (string_bytes text.new ≡ string_bytes text.old ++ put_line head put.entry.now) }
    ensures kept { OnErr result (string_bytes text.new ≡ string_bytes text.old) }
{
    let mut line = Line::begin(alloc)?;
    head_members(&mut line, head, kind::PUT)?;
    put_head(&mut line, put)?;
    put_file(&mut line, put)?;
    line.end(text)
}

fn put_head(line: &mut Line, put: &PutEvent<'_>) -> Result<(), AllocError>
    ensures { OnOk result (line.new ≡ line.old ++ put_head put.entry.now) }
{
    line.text(member::USER, put.user)?;
    key_members(line, put.key)?;
    line.number(member::PEER, put.peer.0)?;
    line.number(member::CLASS, class_number(put.class))
}

fn put_file(line: &mut Line, put: &PutEvent<'_>) -> Result<(), AllocError>
    ensures { OnOk result (line.new ≡ line.old ++ put_file put.entry.now) }
{
    line.octets(member::FILE, put.file)?;
    line.octets(member::TO, put.to)?;
    line.number(member::SIZE, put.size)?;
    queued_members(line, put.queued)
}

fn queued_members(line: &mut Line, queued: Option<u64>) -> Result<(), AllocError>
    ensures { OnOk result (line.new ≡ line.old ++ queued_members queued) }
{
    match queued {
        None => Ok(()),
        Some(number) => line.number(member::QUEUED, number),
    }
}

/// Adds the line of a file of the outbox that was given up.
pub fn push_unsent_event(
    alloc: Global,
    text: &mut String,
    head: EventHead,
    unsent: &UnsentEvent<'_>,
) -> Result<(), AllocError>
    ensures added { OnOk result (string_bytes text.new ≡ string_bytes text.old ++ unsent_line head unsent.entry.now) }
    ensures kept { OnErr result (string_bytes text.new ≡ string_bytes text.old) }
{
    let mut line = Line::begin(alloc)?;
    head_members(&mut line, head, kind::UNSENT)?;
    unsent_members(&mut line, unsent)?;
    line.end(text)
}

// Which file it was, and why.
fn unsent_members(line: &mut Line, unsent: &UnsentEvent<'_>) -> Result<(), AllocError>
    ensures { OnOk result (line.new ≡ line.old ++ unsent_members unsent.entry.now) }
{
    line.number(member::QUEUED, unsent.queued)?;
    line.text(member::USER, unsent.user)?;
    line.number(member::DESTINATION, unsent.destination.0)?;
    line.octets(member::FILE, unsent.file)?;
    line.text(member::WHY, unsent.why)?;
    reason_members(line, unsent.reason)
}

// Why a file can't be read, if that is said.
fn reason_members(line: &mut Line, reason: Option<&str>) -> Result<(), AllocError>
    ensures { OnOk result (line.new ≡ line.old ++ reason_members (option_copied reason.entry)) }
{
    match reason {
        None => Ok(()),
        Some(reason) => line.text(member::REASON, reason),
    }
}

/// Adds the line of a store's result: whether it kept the file of a transaction, and, if that is known, its path below
/// the folder, or why it did not keep it.
pub fn push_stored_event(
    alloc: Global,
    text: &mut String,
    head: EventHead,
    key: TxnKey,
    is_retained: bool,
    detail: Option<&str>,
) -> Result<(), AllocError>
    ensures added { OnOk result (string_bytes text.new
        ≡ string_bytes text.old ++ stored_line head key is_retained (option_copied detail.entry)) }
    ensures kept { OnErr result (string_bytes text.new ≡ string_bytes text.old) }
{
    let mut line = Line::begin(alloc)?;
    head_members(&mut line, head, kind::STORED)?;
    key_members(&mut line, key)?;
    line.text(member::STATUS, status_name(stored_status(is_retained)))?;
    detail_members(&mut line, is_retained, detail)?;
    line.end(text)
}

fn detail_members(
    line: &mut Line,
    is_retained: bool,
    detail: Option<&str>,
) -> Result<(), AllocError>
    ensures { OnOk result (line.new ≡ line.old ++ detail_members is_retained (option_copied detail.entry)) }
{
    match detail {
        None => Ok(()),
        Some(path) if is_retained => line.text(member::AS, path),
        Some(why) => line.text(member::WHY, why),
    }
}

fn stored_status(is_retained: bool) -> FileStatus
    ensures { result ≡ stored_status is_retained }
{
    if is_retained {
        FileStatus::Retained
    } else {
        FileStatus::Rejected
    }
}

/// Adds the line of refusals of one kind since the last such line.
pub fn push_refused_event(
    alloc: Global,
    text: &mut String,
    head: EventHead,
    case: &RefusedCase<'_>,
) -> Result<(), AllocError>
    ensures added { OnOk result (string_bytes text.new ≡ string_bytes text.old ++ refused_line head case.entry.now) }
    ensures kept { OnErr result (string_bytes text.new ≡ string_bytes text.old) }
{
    let mut line = Line::begin(alloc)?;
    head_members(&mut line, head, kind::REFUSED)?;
    case_members(&mut line, member::REFUSAL, case)?;
    datagram_members(&mut line, case.datagram)?;
    line.end(text)
}

/// Adds the line of a hold: nothing is sent to a remote entity from now on.
pub fn push_hold_event(
    alloc: Global,
    text: &mut String,
    head: EventHead,
    id: EntityId,
) -> Result<(), AllocError>
    ensures added { OnOk result (string_bytes text.new ≡ string_bytes text.old ++ hold_line head id) }
    ensures kept { OnErr result (string_bytes text.new ≡ string_bytes text.old) }
{
    push_about_remote(alloc, text, head, kind::HOLD, id)
}

/// Adds the line of a planned hold: the time for which the link to a remote entity was open is over.
pub fn push_planned_hold_event(
    alloc: Global,
    text: &mut String,
    head: EventHead,
    id: EntityId,
) -> Result<(), AllocError>
    ensures added { OnOk result (string_bytes text.new ≡ string_bytes text.old ++ planned_hold_line head id) }
    ensures kept { OnErr result (string_bytes text.new ≡ string_bytes text.old) }
{
    let mut line = Line::begin(alloc)?;
    head_members(&mut line, head, kind::HOLD)?;
    line.number(member::ID, id.0)?;
    line.flag(member::PLANNED, true)?;
    line.end(text)
}

/// Adds the line of a hold's end.
pub fn push_release_event(
    alloc: Global,
    text: &mut String,
    head: EventHead,
    id: EntityId,
) -> Result<(), AllocError>
    ensures added { OnOk result (string_bytes text.new ≡ string_bytes text.old ++ release_line head id) }
    ensures kept { OnErr result (string_bytes text.new ≡ string_bytes text.old) }
{
    push_about_remote(alloc, text, head, kind::RELEASE, id)
}

// Adds the line of an event about a remote entity.
fn push_about_remote(
    alloc: Global,
    text: &mut String,
    head: EventHead,
    kind: &str,
    id: EntityId,
) -> Result<(), AllocError>
    ensures added { OnOk result (string_bytes text.new ≡ string_bytes text.old ++ about_remote_line head kind.now id) }
    ensures kept { OnErr result (string_bytes text.new ≡ string_bytes text.old) }
{
    let mut line = Line::begin(alloc)?;
    head_members(&mut line, head, kind)?;
    line.number(member::ID, id.0)?;
    line.end(text)
}

/// Adds the line of parked datagrams that were dropped for want of room or memory since the last such line.
pub fn push_unparked_event(
    alloc: Global,
    text: &mut String,
    head: EventHead,
    count: u64,
) -> Result<(), AllocError>
    ensures added { OnOk result (string_bytes text.new ≡ string_bytes text.old ++ unparked_line head count) }
    ensures kept { OnErr result (string_bytes text.new ≡ string_bytes text.old) }
{
    let mut line = Line::begin(alloc)?;
    head_members(&mut line, head, kind::UNPARKED)?;
    line.number(member::COUNT, count)?;
    line.end(text)
}

/// Adds the line of transaction numbers that were used up without a file.
pub fn push_skipped_event(
    alloc: Global,
    text: &mut String,
    head: EventHead,
    skipped: &SkippedEvent<'_>,
) -> Result<(), AllocError>
    ensures added { OnOk result (string_bytes text.new ≡ string_bytes text.old ++ skipped_line head skipped.entry.now) }
    ensures kept { OnErr result (string_bytes text.new ≡ string_bytes text.old) }
{
    let mut line = Line::begin(alloc)?;
    head_members(&mut line, head, kind::SKIPPED)?;
    skipped_members(&mut line, skipped)?;
    line.end(text)
}

// Whose numbers they were, how many, and which is the next one.
fn skipped_members(line: &mut Line, skipped: &SkippedEvent<'_>) -> Result<(), AllocError>
    ensures { OnOk result (line.new ≡ line.old ++ skipped_members skipped.entry.now) }
{
    line.text(member::USER, skipped.user)?;
    line.number(member::DESTINATION, skipped.destination.0)?;
    line.number(member::COUNT, skipped.count)?;
    line.number(member::NEXT, skipped.next)
}

/// Adds the line of a command, and what came of it.
pub fn push_command_event(
    alloc: Global,
    text: &mut String,
    head: EventHead,
    command: &CommandEvent<'_>,
) -> Result<(), AllocError>
    ensures added { OnOk result (string_bytes text.new ≡ string_bytes text.old ++ command_line head command.entry.now) }
    ensures kept { OnErr result (string_bytes text.new ≡ string_bytes text.old) }
{
    let mut line = Line::begin(alloc)?;
    head_members(&mut line, head, kind::COMMAND)?;
    command_members(&mut line, command)?;
    line.end(text)
}

// Its words, its answer, and who gave it.
fn command_members(line: &mut Line, command: &CommandEvent<'_>) -> Result<(), AllocError>
    ensures { OnOk result (line.new ≡ line.old ++ command_members command.entry.now) }
{
    line.text(member::WORDS, command.words)?;
    line.text(member::ANSWER, command.answer)?;
    asker_members(line, command.seat)?;
    reason_members(line, command.reason)
}

// Who gave a command.
fn asker_members(line: &mut Line, seat: Option<u64>) -> Result<(), AllocError>
    ensures { OnOk result (line.new ≡ line.old ++ asker_members seat) }
{
    match seat {
        Some(seat) => {
            line.text(member::BY, "client")?;
            line.number(member::SEAT, seat)
        }
        None => line.text(member::BY, "input"),
    }
}

/// Adds the line of a user's transaction that was abandoned because its journal is full.
pub fn push_journal_full_event(
    alloc: Global,
    text: &mut String,
    head: EventHead,
    user: &str,
    key: TxnKey,
) -> Result<(), AllocError>
    ensures added { OnOk result (string_bytes text.new ≡ string_bytes text.old ++ journal_full_line head user.now key) }
    ensures kept { OnErr result (string_bytes text.new ≡ string_bytes text.old) }
{
    let mut line = Line::begin(alloc)?;
    head_members(&mut line, head, kind::JOURNAL_FULL)?;
    journal_full_members(&mut line, user, key)?;
    line.end(text)
}

// Whose transaction it was, and which one.
fn journal_full_members(line: &mut Line, user: &str, key: TxnKey) -> Result<(), AllocError>
    ensures { OnOk result (line.new ≡ line.old ++ journal_full_members user.now key) }
{
    line.text(member::USER, user)?;
    key_members(line, key)
}

/// Adds the line that a log has after events that were lost: how many. It is no event, and has no number.
pub fn push_lost_line(
    alloc: Global,
    text: &mut String,
    at: Moment,
    count: u64,
) -> Result<(), AllocError>
    ensures added { OnOk result (string_bytes text.new ≡ string_bytes text.old ++ lost_line at count) }
    ensures kept { OnErr result (string_bytes text.new ≡ string_bytes text.old) }
{
    let mut line = Line::begin(alloc)?;
    line.moment(member::AT, at)?;
    line.text(member::KIND, kind::LOST)?;
    line.number(member::COUNT, count)?;
    line.end(text)
}

/// Adds the line of a server's end.
pub fn push_end_event(alloc: Global, text: &mut String, head: EventHead) -> Result<(), AllocError>
    ensures added { OnOk result (string_bytes text.new ≡ string_bytes text.old ++ end_line head) }
    ensures kept { OnErr result (string_bytes text.new ≡ string_bytes text.old) }
{
    push_plain_event(alloc, text, head, kind::END)
}

// Adds the line of an event that has no further members.
fn push_plain_event(
    alloc: Global,
    text: &mut String,
    head: EventHead,
    kind: &str,
) -> Result<(), AllocError>
    ensures added { OnOk result (string_bytes text.new ≡ string_bytes text.old ++ plain_line head kind.now) }
    ensures kept { OnErr result (string_bytes text.new ≡ string_bytes text.old) }
{
    let mut line = Line::begin(alloc)?;
    head_members(&mut line, head, kind)?;
    line.end(text)
}
