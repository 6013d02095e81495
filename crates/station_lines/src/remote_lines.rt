//! The lines of a status about remote entities.
ghost use Rattle.std.specs.Prelude.{◌≡◌, ◌++◌, OnErr, OnOk, string_bytes};
ghost use Rattle.std.specs.Option.{option_copied};
ghost use Rattle.station_lines.specs.StatusLines.{address_members, crossing_members, heard_members, held_members, open_members, rate_members, remote_head, remote_line, remote_tail};

use crate::line::Line;
use crate::moment::Moment;
use crate::status::{Heard, RemoteStatus};
use station_names::{kind, member};
use std::alloc::{AllocError, Global};

/// Adds the line of a remote entity.
pub fn push_remote(
    alloc: Global,
    text: &mut String,
    remote: &RemoteStatus<'_>,
) -> Result<(), AllocError>
    ensures added { OnOk result (string_bytes text.new ≡ string_bytes text.old ++ remote_line remote.entry.now) }
    ensures kept { OnErr result (string_bytes text.new ≡ string_bytes text.old) }
{
    let mut line = Line::begin(alloc)?;
    remote_head(&mut line, remote)?;
    held_members(&mut line, remote.held_since)?;
    open_members(&mut line, remote.open_until)?;
    rate_members(&mut line, remote.rate)?;
    crossing_members(&mut line, remote)?;
    remote_tail(&mut line, remote)?;
    line.end(text)
}

// The remote entity and its address.
fn remote_head(line: &mut Line, remote: &RemoteStatus<'_>) -> Result<(), AllocError>
    ensures { OnOk result (line.new ≡ line.old ++ remote_head remote.entry.now) }
{
    line.text(member::KIND, kind::REMOTE)?;
    line.number(member::ID, remote.id.0)?;
    address_members(line, remote.address)
}

fn address_members(line: &mut Line, address: Option<&str>) -> Result<(), AllocError>
    ensures { OnOk result (line.new ≡ line.old ++ address_members (option_copied address.entry)) }
{
    match address {
        None => Ok(()),
        Some(address) => line.text(member::ADDRESS, address),
    }
}

fn held_members(line: &mut Line, held_since: Option<Moment>) -> Result<(), AllocError>
    ensures { OnOk result (line.new ≡ line.old ++ held_members held_since) }
{
    match held_since {
        None => line.flag(member::HELD, false),
        Some(since) => {
            line.flag(member::HELD, true)?;
            line.moment(member::HELD_SINCE, since)
        }
    }
}

fn open_members(line: &mut Line, open_until: Option<Moment>) -> Result<(), AllocError>
    ensures { OnOk result (line.new ≡ line.old ++ open_members open_until) }
{
    match open_until {
        None => Ok(()),
        Some(until) => line.moment(member::OPEN_UNTIL, until),
    }
}

fn rate_members(line: &mut Line, rate: Option<u64>) -> Result<(), AllocError>
    ensures { OnOk result (line.new ≡ line.old ++ rate_members rate) }
{
    match rate {
        None => Ok(()),
        Some(rate) => line.number(member::RATE, rate),
    }
}

fn crossing_members(line: &mut Line, remote: &RemoteStatus<'_>) -> Result<(), AllocError>
    ensures { OnOk result (line.new ≡ line.old ++ crossing_members remote.entry.now) }
{
    line.four_numbers(
        (member::DATAGRAMS_IN, remote.datagrams_in),
        (member::OCTETS_IN, remote.octets_in),
        (member::DATAGRAMS_OUT, remote.datagrams_out),
        (member::OCTETS_OUT, remote.octets_out),
    )
}

// The PDUs that weren't sent to a remote entity, and when it was heard last.
fn remote_tail(line: &mut Line, remote: &RemoteStatus<'_>) -> Result<(), AllocError>
    ensures { OnOk result (line.new ≡ line.old ++ remote_tail remote.entry.now) }
{
    line.number(member::FAILED_SENDS, remote.failed_sends)?;
    heard_members(line, remote.heard)
}

fn heard_members(line: &mut Line, heard: Option<Heard>) -> Result<(), AllocError>
    ensures { OnOk result (line.new ≡ line.old ++ heard_members heard) }
{
    match heard {
        None => Ok(()),
        Some(heard) => {
            line.moment(member::HEARD, heard.at)?;
            line.number(member::SILENCE, heard.silence)
        }
    }
}
