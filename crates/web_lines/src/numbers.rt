//! What a line says about a station or an event.
ghost use Rattle.std.specs.Prelude.{◌≡◌, IfOk, codes, option_map, string_bytes};
ghost use Rattle.std.specs.List.{find};
ghost use Rattle.json.specs.Value.{value_view};
ghost use Rattle.web_lines.specs.Document.{is_of_kind};
ghost use Rattle.web_lines.specs.Numbers.{IsNumberIn};
ghost use Rattle.web_lines.specs.Starts.{IsStartOf, start_in, start_of_line};
ghost use Rattle.web_lines.specs.declared.kind.Kind.TheVariants.{Entity};

use crate::kind::Kind;
use crate::lines::{Line, read_lines};
use crate::place::whole_in;
use json::{Error, Scratch, Value};
use station_names::member;
use std::alloc::{AllocError, Global};

/// The number of an event; None if the line isn't a JSON object with a number.
pub fn event_number(alloc: Global, line: &str) -> Result<Option<u64>, AllocError>
    ensures { IfOk result (IsNumberIn (codes "number") line.now) }
{
    let mut scratch = Scratch::new(alloc);
    scratch.reserve(line.len())?;
    match Value::parse(alloc, line, &mut scratch) {
        Ok(value) => Ok(whole_in(&value, member::NUMBER)),
        Err(Error::OutOfMemory) => Err(AllocError),
        Err(_) => Ok(None),
    }
}

/// The moment at which a station started, as the entity's line of a status gives it; None if no line does.
pub fn start_moment(alloc: Global, status: &str) -> Result<Option<String>, AllocError>
    ensures { IfOk result (λ moment. IsStartOf status.now (option_map string_bytes moment)) }
{
    let lines = read_lines(alloc, status)?;
    match entity_line(lines.as_slice()) {
        Some(line) => started_at(alloc, line.text),
        None => Ok(None),
    }
}

// The first line of the entity.
fn entity_line<'a>(lines: &[Line<'a>]) -> Option<Line<'a>>
    ensures { result ≡ find (is_of_kind Entity) lines.now }
{
    lines
        .iter()
        .copied()
        .find(|line| line.kind.place() == Kind::Entity.place())
}

// The moment that a line gives.
fn started_at(alloc: Global, line: &str) -> Result<Option<String>, AllocError>
    ensures { IfOk result (λ moment. option_map string_bytes moment ≡ start_of_line line.now) }
{
    let mut scratch = Scratch::new(alloc);
    scratch.reserve(line.len())?;
    let Ok(value) = Value::parse(alloc, line, &mut scratch) else {
        return Err(AllocError);
    };
    match start_in(&value) {
        Some(moment) => Ok(Some(String::from_str(alloc, moment)?)),
        None => Ok(None),
    }
}

// The text of the member `started`.
fn start_in<'a>(value: &Value<'a>) -> Option<&'a str>
    ensures { option_map (λ s. s.now) result ≡ start_in (value_view value.now) }
{
    match value.get(member::STARTED) {
        Some(member) => member.as_str(),
        None => None,
    }
}
