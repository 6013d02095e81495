//! The lines of a status.
ghost use Rattle.std.specs.Prelude.{◌≡◌, ◌++◌, OnErr, OnOk, string_bytes, codes};
ghost use Rattle.std.specs.Option.{option_copied};
ghost use Rattle.station_lines.specs.Members.{object_member};
ghost use Rattle.station_lines.specs.StatusLines.{entity_line, entity_head, entity_state, counter_members, traffic_members, trouble_members, outcome_members, log_line, user_line, transaction_line, transaction_head, transaction_part, transaction_file, transaction_end, file_members, last_members, ending_members, end_members, notice_members, notice_name, missing_members, role_name, state_name, queued_line, queued_head, queued_file, reading_line, reading_members, storing_line, storing_members, why_members, parked_line, parked_head, parked_amounts, since_members, refusal_line, note_line, note_members};

use crate::line::Line;
use crate::members::{
    RefusedCase, RefusedPdu, case_members, class_number, datagram_members, finished_members,
    key_members, pdu_members,
};
use crate::moment::Moment;
use crate::status::{
    Counters, Ending, EntityStatus, LogStatus, NoteStatus, Notice, ParkedStatus, QueuedStatus,
    ReadingStatus, StoringStatus, TransactionStatus, UserStatus,
};
use answer_texts::phase_name;
use indications::Side;
use lane_table::{Glance, GlancedFile};
use station_names::{kind, member, word};
use std::alloc::{AllocError, Global};

/// Adds the line of the entity.
pub fn push_entity(
    alloc: Global,
    text: &mut String,
    entity: &EntityStatus<'_>,
) -> Result<(), AllocError>
    ensures added { OnOk result (string_bytes text.new ≡ string_bytes text.old ++ entity_line entity.entry.now) }
    ensures kept { OnErr result (string_bytes text.new ≡ string_bytes text.old) }
{
    let mut line = Line::begin(alloc)?;
    entity_head(&mut line, entity)?;
    entity_state(&mut line, entity)?;
    counters_object(&mut line, &entity.counters)?;
    line.end(text)
}

// The entity, and since when it runs.
fn entity_head(line: &mut Line, entity: &EntityStatus<'_>) -> Result<(), AllocError>
    ensures { OnOk result (line.new ≡ line.old ++ entity_head entity.entry.now) }
{
    line.text(member::KIND, kind::ENTITY)?;
    line.number(member::ID, entity.id.0)?;
    line.text(member::VERSION, entity.version)?;
    line.moment(member::STARTED, entity.started)
}

// The entity's state.
fn entity_state(line: &mut Line, entity: &EntityStatus<'_>) -> Result<(), AllocError>
    ensures { OnOk result (line.new ≡ line.old ++ entity_state entity.entry.now) }
{
    line.moment(member::NOW, entity.now)?;
    line.number(member::WORKERS, entity.workers as u64)?;
    line.number(member::CLIENTS, entity.clients as u64)?;
    line.number(member::EVENTS, entity.events)
}

#[tactic(auto, unfolding(crate::specs::Members::object_member))]
fn counters_object(line: &mut Line, counters: &Counters) -> Result<(), AllocError>
    ensures { OnOk result (line.new
        ≡ line.old ++ object_member (codes "counters") (counter_members counters.now)) }
{
    line.begin_object(member::COUNTERS)?;
    counter_members(line, counters)?;
    line.end_object()
}

fn counter_members(line: &mut Line, counters: &Counters) -> Result<(), AllocError>
    ensures { OnOk result (line.new ≡ line.old ++ counter_members counters.now) }
{
    traffic_members(line, counters)?;
    trouble_members(line, counters)?;
    outcome_members(line, counters)
}

fn traffic_members(line: &mut Line, counters: &Counters) -> Result<(), AllocError>
    ensures { OnOk result (line.new ≡ line.old ++ traffic_members counters.now) }
{
    line.four_numbers(
        (member::DATAGRAMS_IN, counters.datagrams_in),
        (member::OCTETS_IN, counters.octets_in),
        (member::DATAGRAMS_OUT, counters.datagrams_out),
        (member::OCTETS_OUT, counters.octets_out),
    )
}

fn trouble_members(line: &mut Line, counters: &Counters) -> Result<(), AllocError>
    ensures { OnOk result (line.new ≡ line.old ++ trouble_members counters.now) }
{
    line.four_numbers(
        (member::FAILED_SENDS, counters.failed_sends),
        (member::FAILED_READS, counters.failed_reads),
        (member::FOREIGN_DATAGRAMS, counters.foreign_datagrams),
        (member::DECODE_FAULTS, counters.decode_faults),
    )
}

fn outcome_members(line: &mut Line, counters: &Counters) -> Result<(), AllocError>
    ensures { OnOk result (line.new ≡ line.old ++ outcome_members counters.now) }
{
    line.four_numbers(
        (member::REFUSED, counters.refused),
        (member::STORED, counters.stored),
        (member::FAILED_STORES, counters.failed_stores),
        (member::DROPPED_CLIENTS, counters.dropped_clients),
    )
}

/// Adds the line of the file that events are written to.
pub fn push_log(alloc: Global, text: &mut String, log: &LogStatus) -> Result<(), AllocError>
    ensures added { OnOk result (string_bytes text.new ≡ string_bytes text.old ++ log_line log.now) }
    ensures kept { OnErr result (string_bytes text.new ≡ string_bytes text.old) }
{
    let mut line = Line::begin(alloc)?;
    line.text(member::KIND, kind::LOG)?;
    line.flag(member::FAILING, log.failing)?;
    line.number(member::WRITTEN, log.written)?;
    line.number(member::LOST, log.lost)?;
    line.end(text)
}

/// Adds the line of a user.
pub fn push_user(alloc: Global, text: &mut String, user: &UserStatus<'_>) -> Result<(), AllocError>
    ensures added { OnOk result (string_bytes text.new ≡ string_bytes text.old ++ user_line user.entry.now) }
    ensures kept { OnErr result (string_bytes text.new ≡ string_bytes text.old) }
{
    let mut line = Line::begin(alloc)?;
    line.text(member::KIND, kind::USER)?;
    line.text(member::NAME, user.name)?;
    line.number(member::WAITING, user.waiting as u64)?;
    line.number(member::CAPACITY, user.capacity as u64)?;
    line.end(text)
}

/// Adds the line of the transaction that a lane runs, or the last one that it ran.
pub fn push_transaction(
    alloc: Global,
    text: &mut String,
    transaction: &TransactionStatus<'_>,
) -> Result<(), AllocError>
    ensures added { OnOk result (string_bytes text.new ≡ string_bytes text.old ++ transaction_line transaction.entry.now) }
    ensures kept { OnErr result (string_bytes text.new ≡ string_bytes text.old) }
{
    let mut line = Line::begin(alloc)?;
    transaction_head(&mut line, transaction)?;
    transaction_part(&mut line, transaction.glance)?;
    transaction_file(&mut line, transaction.glance)?;
    transaction_end(&mut line, transaction)?;
    line.end(text)
}

// The transaction's key and its user.
fn transaction_head(line: &mut Line, transaction: &TransactionStatus<'_>) -> Result<(), AllocError>
    ensures { OnOk result (line.new ≡ line.old ++ transaction_head transaction.entry.now) }
{
    line.text(member::KIND, kind::TRANSACTION)?;
    key_members(line, transaction.glance.key)?;
    line.text(member::USER, transaction.user)?;
    line.number(member::LANE, transaction.lane as u64)
}

// This end's role, the other end, the class and the state.
fn transaction_part(line: &mut Line, glance: &Glance) -> Result<(), AllocError>
    ensures { OnOk result (line.new ≡ line.old ++ transaction_part glance.now) }
{
    line.text(member::ROLE, role_name(glance.end))?;
    line.number(member::PEER, glance.peer.0)?;
    line.number(member::CLASS, class_number(glance.class))?;
    line.text(member::STATE, state_name(glance))
}

// The transaction's file and its progress.
fn transaction_file(line: &mut Line, glance: &Glance) -> Result<(), AllocError>
    ensures { OnOk result (line.new ≡ line.old ++ transaction_file glance.now) }
{
    file_members(line, &glance.file)?;
    line.number(member::OCTETS, u64::from(glance.progress))?;
    line.number(member::EVENTS, u64::from(glance.entries))
}

fn file_members(line: &mut Line, file: &Option<GlancedFile>) -> Result<(), AllocError>
    ensures { OnOk result (line.new ≡ line.old ++ file_members file.now) }
{
    let Some(file) = file else {
        return Ok(());
    };
    line.octets(member::FILE, file.source_name.as_slice())?;
    line.octets(member::TO, file.destination_name.as_slice())?;
    line.number(member::SIZE, file.size)
}

// What the server saw of the transaction, and a notice.
fn transaction_end(line: &mut Line, transaction: &TransactionStatus<'_>) -> Result<(), AllocError>
    ensures { OnOk result (line.new ≡ line.old ++ transaction_end transaction.entry.now) }
{
    last_members(line, transaction.last)?;
    ending_members(line, transaction.ending)?;
    notice_members(line, transaction.notice)?;
    missing_members(line, transaction.missing)
}

fn last_members(line: &mut Line, last: Option<Moment>) -> Result<(), AllocError>
    ensures { OnOk result (line.new ≡ line.old ++ last_members last) }
{
    match last {
        None => Ok(()),
        Some(last) => line.moment(member::LAST, last),
    }
}

fn ending_members(line: &mut Line, ending: Option<Ending>) -> Result<(), AllocError>
    ensures { OnOk result (line.new ≡ line.old ++ ending_members ending) }
{
    match ending {
        None => Ok(()),
        Some(ending) => end_members(line, ending),
    }
}

fn end_members(line: &mut Line, ending: Ending) -> Result<(), AllocError>
    ensures { OnOk result (line.new ≡ line.old ++ end_members ending) }
{
    match ending {
        Ending::Finished {
            condition,
            delivery,
            status,
        } => finished_members(line, condition, delivery, status),
        Ending::Abandoned { condition } => line.number(
            member::CONDITION,
            u64::from(condition.code()),
        ),
    }
}

fn notice_members(line: &mut Line, notice: Option<Notice>) -> Result<(), AllocError>
    ensures { OnOk result (line.new ≡ line.old ++ notice_members notice) }
{
    match notice {
        None => Ok(()),
        Some(notice) => line.text(member::NOTICE, notice_name(notice)),
    }
}

fn missing_members(line: &mut Line, missing: Option<u64>) -> Result<(), AllocError>
    ensures { OnOk result (line.new ≡ line.old ++ missing_members missing) }
{
    match missing {
        None => Ok(()),
        Some(missing) => line.number(member::MISSING, missing),
    }
}

fn notice_name(notice: Notice) -> &'static str
    ensures { result.now ≡ notice_name notice }
{
    match notice {
        Notice::JournalFull => "journal-full",
        Notice::LastNumbers => "last-numbers",
    }
}

/// The name of this end's role.
pub(crate) fn role_name(end: Side) -> &'static str
    ensures { result.now ≡ role_name end }
{
    match end {
        Side::Sender => word::SENDER,
        Side::Receiver => word::RECEIVER,
    }
}

fn state_name(glance: &Glance) -> &'static str
    ensures { result.now ≡ state_name glance.now }
{
    if glance.has_ended {
        word::ENDED
    } else {
        phase_name(glance.phase)
    }
}

/// Adds the line of a file that waits in the outbox.
pub fn push_queued(
    alloc: Global,
    text: &mut String,
    queued: &QueuedStatus<'_>,
) -> Result<(), AllocError>
    ensures added { OnOk result (string_bytes text.new ≡ string_bytes text.old ++ queued_line queued.entry.now) }
    ensures kept { OnErr result (string_bytes text.new ≡ string_bytes text.old) }
{
    let mut line = Line::begin(alloc)?;
    queued_head(&mut line, queued)?;
    queued_file(&mut line, queued)?;
    line.end(text)
}

// The file, its user and its destination.
fn queued_head(line: &mut Line, queued: &QueuedStatus<'_>) -> Result<(), AllocError>
    ensures { OnOk result (line.new ≡ line.old ++ queued_head queued.entry.now) }
{
    line.text(member::KIND, kind::QUEUED)?;
    line.number(member::NUMBER, queued.number)?;
    line.text(member::USER, queued.user)?;
    line.number(member::CLASS, class_number(queued.class))?;
    line.number(member::DESTINATION, queued.destination.0)
}

// The file's names, and since when it waits.
fn queued_file(line: &mut Line, queued: &QueuedStatus<'_>) -> Result<(), AllocError>
    ensures { OnOk result (line.new ≡ line.old ++ queued_file queued.entry.now) }
{
    line.octets(member::FILE, queued.file)?;
    line.octets(member::TO, queued.to)?;
    line.moment(member::SINCE, queued.since)
}

/// Adds the line of a file being read.
pub fn push_reading(
    alloc: Global,
    text: &mut String,
    reading: &ReadingStatus<'_>,
) -> Result<(), AllocError>
    ensures added { OnOk result (string_bytes text.new ≡ string_bytes text.old ++ reading_line reading.entry.now) }
    ensures kept { OnErr result (string_bytes text.new ≡ string_bytes text.old) }
{
    let mut line = Line::begin(alloc)?;
    reading_members(&mut line, reading)?;
    line.end(text)
}

fn reading_members(line: &mut Line, reading: &ReadingStatus<'_>) -> Result<(), AllocError>
    ensures { OnOk result (line.new ≡ line.old ++ reading_members reading.entry.now) }
{
    line.text(member::KIND, kind::READING)?;
    line.octets(member::FILE, reading.file)?;
    line.moment(member::SINCE, reading.since)
}

/// Adds the line of a received file being stored, or one that couldn't be stored so far.
pub fn push_storing(
    alloc: Global,
    text: &mut String,
    storing: &StoringStatus<'_>,
) -> Result<(), AllocError>
    ensures added { OnOk result (string_bytes text.new ≡ string_bytes text.old ++ storing_line storing.entry.now) }
    ensures kept { OnErr result (string_bytes text.new ≡ string_bytes text.old) }
{
    let mut line = Line::begin(alloc)?;
    storing_members(&mut line, storing)?;
    why_members(&mut line, storing.why)?;
    line.end(text)
}

fn storing_members(line: &mut Line, storing: &StoringStatus<'_>) -> Result<(), AllocError>
    ensures { OnOk result (line.new ≡ line.old ++ storing_members storing.entry.now) }
{
    line.text(member::KIND, kind::STORING)?;
    line.number(member::SOURCE, storing.source.0)?;
    line.number(member::SEQ, storing.seq)?;
    line.moment(member::SINCE, storing.since)
}

// What hindered the last try, if there was one.
pub(crate) fn why_members(line: &mut Line, why: Option<&str>) -> Result<(), AllocError>
    ensures { OnOk result (line.new ≡ line.old ++ why_members (option_copied why.entry)) }
{
    match why {
        Some(why) => line.text(member::WHY, why),
        None => Ok(()),
    }
}

/// Adds the line of a lane for which datagrams wait, or were dropped.
pub fn push_parked(
    alloc: Global,
    text: &mut String,
    parked: &ParkedStatus<'_>,
) -> Result<(), AllocError>
    ensures added { OnOk result (string_bytes text.new ≡ string_bytes text.old ++ parked_line parked.entry.now) }
    ensures kept { OnErr result (string_bytes text.new ≡ string_bytes text.old) }
{
    let mut line = Line::begin(alloc)?;
    parked_head(&mut line, parked)?;
    parked_amounts(&mut line, parked)?;
    since_members(&mut line, parked.since)?;
    line.end(text)
}

// Which lane it is.
fn parked_head(line: &mut Line, parked: &ParkedStatus<'_>) -> Result<(), AllocError>
    ensures { OnOk result (line.new ≡ line.old ++ parked_head parked.entry.now) }
{
    line.text(member::KIND, kind::PARKED)?;
    line.text(member::USER, parked.user)?;
    line.number(member::LANE, parked.lane as u64)
}

// How much waits for it, and how much was dropped.
fn parked_amounts(line: &mut Line, parked: &ParkedStatus<'_>) -> Result<(), AllocError>
    ensures { OnOk result (line.new ≡ line.old ++ parked_amounts parked.entry.now) }
{
    line.four_numbers(
        (member::DATAGRAMS, parked.datagrams),
        (member::TRANSACTIONS, parked.transactions),
        (member::OCTETS, parked.octets),
        (member::DROPPED, parked.dropped),
    )
}

fn since_members(line: &mut Line, since: Option<Moment>) -> Result<(), AllocError>
    ensures { OnOk result (line.new ≡ line.old ++ since_members since) }
{
    match since {
        None => Ok(()),
        Some(since) => line.moment(member::SINCE, since),
    }
}

/// Adds the line of a kind of refusal, with the moment of the last one, and what its datagram says about its PDU, if
/// that is shown.
pub fn push_refusal(
    alloc: Global,
    text: &mut String,
    case: &RefusedCase<'_>,
    last: Moment,
    pdu: Option<RefusedPdu<'_>>,
) -> Result<(), AllocError>
    ensures added { OnOk result (string_bytes text.new ≡ string_bytes text.old ++ refusal_line case.entry.now last pdu.entry) }
    ensures kept { OnErr result (string_bytes text.new ≡ string_bytes text.old) }
{
    let mut line = Line::begin(alloc)?;
    line.text(member::KIND, kind::REFUSAL)?;
    case_members(&mut line, member::NUMBER, case)?;
    line.moment(member::LAST, last)?;
    datagram_members(&mut line, case.datagram)?;
    pdu_members(&mut line, pdu)?;
    line.end(text)
}

/// Adds the line of a note on a remote entity's lanes.
pub fn push_note(alloc: Global, text: &mut String, note: &NoteStatus<'_>) -> Result<(), AllocError>
    ensures added { OnOk result (string_bytes text.new ≡ string_bytes text.old ++ note_line note.entry.now) }
    ensures kept { OnErr result (string_bytes text.new ≡ string_bytes text.old) }
{
    let mut line = Line::begin(alloc)?;
    note_members(&mut line, note)?;
    line.end(text)
}

fn note_members(line: &mut Line, note: &NoteStatus<'_>) -> Result<(), AllocError>
    ensures { OnOk result (line.new ≡ line.old ++ note_members note.entry.now) }
{
    line.text(member::KIND, kind::NOTE)?;
    line.number(member::REMOTE, note.remote.0)?;
    line.number(member::SENDING_LANES, note.sending_lanes)?;
    line.number(member::RECEIVING_LANES, note.receiving_lanes)?;
    line.numbers(member::BETTER, note.better)
}
