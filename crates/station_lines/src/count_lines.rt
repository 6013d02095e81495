//! The lines of a status that show what a server counts if that is asked for.
ghost use Rattle.std.specs.Prelude.{◌≡◌, ◌++◌, OnErr, OnOk, string_bytes};
ghost use Rattle.station_lines.specs.CountLines.{delivered_line, delivered_members, ended_line, ended_members, store_line, store_members};

use crate::line::Line;
use crate::status::{DeliveredStatus, EndedStatus, StoreStatus};
use crate::status_lines::{role_name, why_members};
use station_names::{kind, member};
use std::alloc::{AllocError, Global};

/// Adds the line of the transactions that ended in one way.
pub fn push_ended(alloc: Global, text: &mut String, ended: &EndedStatus) -> Result<(), AllocError>
    ensures added { OnOk result (string_bytes text.new ≡ string_bytes text.old ++ ended_line ended.now) }
    ensures kept { OnErr result (string_bytes text.new ≡ string_bytes text.old) }
{
    let mut line = Line::begin(alloc)?;
    ended_members(&mut line, ended)?;
    line.end(text)
}

fn ended_members(line: &mut Line, ended: &EndedStatus) -> Result<(), AllocError>
    ensures { OnOk result (line.new ≡ line.old ++ ended_members ended.now) }
{
    line.text(member::KIND, kind::ENDED)?;
    line.text(member::ROLE, role_name(ended.end))?;
    line.number(member::CLASS, u64::from(ended.class))?;
    line.number(member::CONDITION, u64::from(ended.condition))?;
    line.number(member::COUNT, ended.count)
}

/// Adds the line of the files that came whole, in one role.
pub fn push_delivered(
    alloc: Global,
    text: &mut String,
    delivered: &DeliveredStatus,
) -> Result<(), AllocError>
    ensures added { OnOk result (string_bytes text.new ≡ string_bytes text.old ++ delivered_line delivered.now) }
    ensures kept { OnErr result (string_bytes text.new ≡ string_bytes text.old) }
{
    let mut line = Line::begin(alloc)?;
    delivered_members(&mut line, delivered)?;
    line.end(text)
}

fn delivered_members(line: &mut Line, delivered: &DeliveredStatus) -> Result<(), AllocError>
    ensures { OnOk result (line.new ≡ line.old ++ delivered_members delivered.now) }
{
    line.text(member::KIND, kind::DELIVERED)?;
    line.text(member::ROLE, role_name(delivered.end))?;
    line.number(member::FILES, delivered.files)?;
    line.number(member::OCTETS, delivered.octets)
}

/// Adds the line of the last file that was given to the store.
pub fn push_store(alloc: Global, text: &mut String, store: &StoreStatus) -> Result<(), AllocError>
    ensures added { OnOk result (string_bytes text.new ≡ string_bytes text.old ++ store_line store.now) }
    ensures kept { OnErr result (string_bytes text.new ≡ string_bytes text.old) }
{
    let mut line = Line::begin(alloc)?;
    store_members(&mut line, store)?;
    why_members(&mut line, store.why)?;
    line.end(text)
}

fn store_members(line: &mut Line, store: &StoreStatus) -> Result<(), AllocError>
    ensures { OnOk result (line.new ≡ line.old ++ store_members store.now) }
{
    line.text(member::KIND, kind::STORE)?;
    line.number(member::SOURCE, store.source.0)?;
    line.number(member::SEQ, store.seq)?;
    line.moment(member::AT, store.at)?;
    line.number(member::MICROSECONDS, store.microseconds)
}
