//! Members that several kinds of lines have.
ghost use Rattle.std.specs.Prelude.{◌≡◌, ◌++◌, OnOk};
ghost use Rattle.station_lines.specs.Shared.{key_members, finished_members, case_members, datagram_members, fault_members, first_octets, class_number, named_members, pdu_members};

use crate::line::Line;
use answer_texts::{delivery_name, status_name};
use cfdp_types::{Class, Condition, Delivery, FileStatus, TxnKey};
use station_names::member;
use std::alloc::AllocError;

/// The most octets of a refused datagram that a line shows.
pub const SHOWN_OCTETS: usize = 64;

/// Refusals of one kind, with the last case.
#[derive(Clone, Copy, Debug)]
pub struct RefusedCase<'a> {
    /// The number of the refusal.
    pub number: u8,
    /// The name of the refusal.
    pub name: &'a str,
    /// The number of the decode fault, for octets that aren't a PDU.
    pub fault: Option<u8>,
    /// How many of them there were.
    pub count: u64,
    /// The datagram that was refused, unless it was a command or a timer.
    pub datagram: Option<Datagram<'a>>,
}

/// A datagram that was received.
#[derive(Clone, Copy, Debug)]
pub struct Datagram<'a> {
    /// The address that it came from.
    pub from: &'a str,
    /// Its octets. A line shows the first of them, at most `SHOWN_OCTETS`.
    pub octets: &'a [u8],
}

/// What the first octets of a refused datagram say of its PDU.
#[derive(Clone, Copy, Debug)]
pub struct RefusedPdu<'a> {
    /// Its transaction, if the octets name one.
    pub key: Option<TxnKey>,
    /// The kind of the PDU, or that the octets aren't a PDU.
    pub kind: &'a str,
}

pub(crate) fn key_members(line: &mut Line, key: TxnKey) -> Result<(), AllocError>
    ensures { OnOk result (line.new ≡ line.old ++ key_members key) }
{
    line.number(member::SOURCE, key.source.0)?;
    line.number(member::SEQ, key.seq)
}

// How a transaction finished.
pub(crate) fn finished_members(
    line: &mut Line,
    condition: Condition,
    delivery: Delivery,
    status: FileStatus,
) -> Result<(), AllocError>
    ensures { OnOk result (line.new ≡ line.old ++ finished_members condition delivery status) }
{
    line.number(member::CONDITION, u64::from(condition.code()))?;
    line.text(member::DELIVERY, delivery_name(delivery))?;
    line.text(member::STATUS, status_name(status))
}

// A kind of refusal and its count. The member for its number has a name that depends on the line.
pub(crate) fn case_members(
    line: &mut Line,
    number_name: &str,
    case: &RefusedCase<'_>,
) -> Result<(), AllocError>
    ensures { OnOk result (line.new ≡ line.old ++ case_members number_name.now case.entry.now) }
{
    line.number(number_name, u64::from(case.number))?;
    line.text(member::NAME, case.name)?;
    fault_members(line, case.fault)?;
    line.number(member::COUNT, case.count)
}

fn fault_members(line: &mut Line, fault: Option<u8>) -> Result<(), AllocError>
    ensures { OnOk result (line.new ≡ line.old ++ fault_members fault) }
{
    match fault {
        None => Ok(()),
        Some(fault) => line.number(member::FAULT, u64::from(fault)),
    }
}

pub(crate) fn datagram_members(
    line: &mut Line,
    datagram: Option<Datagram<'_>>,
) -> Result<(), AllocError>
    ensures { OnOk result (line.new ≡ line.old ++ datagram_members datagram.entry) }
{
    let Some(datagram) = datagram else {
        return Ok(());
    };
    line.text(member::FROM, datagram.from)?;
    line.hex(member::OCTETS, first_octets(datagram.octets, SHOWN_OCTETS))
}

// Which PDU it was, if that is shown.
pub(crate) fn pdu_members(line: &mut Line, pdu: Option<RefusedPdu<'_>>) -> Result<(), AllocError>
    ensures { OnOk result (line.new ≡ line.old ++ pdu_members pdu.entry) }
{
    let Some(pdu) = pdu else {
        return Ok(());
    };
    named_members(line, pdu.key)?;
    line.text(member::PDU, pdu.kind)
}

// Its transaction, if the octets name one.
fn named_members(line: &mut Line, key: Option<TxnKey>) -> Result<(), AllocError>
    ensures { OnOk result (line.new ≡ line.old ++ named_members key) }
{
    match key {
        Some(key) => key_members(line, key),
        None => Ok(()),
    }
}

// The first octets, at most `most`.
#[tactic(auto, unfolding(crate::specs::Shared::first_octets))]
fn first_octets(octets: &[u8], most: usize) -> &[u8]
    ensures { result.now ≡ first_octets most octets.now }
{
    if octets.len() <= most {
        octets
    } else {
        &octets[..most]
    }
}

pub(crate) fn class_number(class: Class) -> u64
    ensures { result ≡ class_number class }
{
    match class {
        Class::One => 1,
        Class::Two => 2,
    }
}
