//! Received files that couldn't be stored so far.
ghost use Rattle.std.specs.Prelude.{◌≡◌, IfOk, Some};
ghost use Rattle.json.specs.Value.{value_view};
ghost use Rattle.web_lines.specs.Hindered.{count_of_hindered, is_hindered, says_why};

use crate::kind::Kind;
use crate::lines::Line;
use json::{Scratch, Value};
use station_names::member;
use std::alloc::{AllocError, Global};

/// How many lines say what hindered the last try to store a file.
pub(crate) fn count_hindered(alloc: Global, lines: &[Line<'_>]) -> Result<u64, AllocError>
    ensures { IfOk result (λ count. count ≡ count_of_hindered lines.now) }
{
    let mut scratch = Scratch::new(alloc);
    let mut count = 0u64;
    for line in lines {
        if is_hindered(alloc, *line, &mut scratch)? {
            count += 1;
        }
    }
    Ok(count)
}

// Whether a line is about a received file, and says what hindered the last try to store it.
fn is_hindered(alloc: Global, line: Line<'_>, scratch: &mut Scratch) -> Result<bool, AllocError>
    ensures { IfOk result (λ is. is ≡ is_hindered line.entry) }
{
    if line.kind.place() != Kind::Storing.place() {
        return Ok(false);
    }
    scratch.reserve(line.text.len())?;
    match Value::parse(alloc, line.text, scratch) {
        Ok(value) => Ok(says_why(&value)),
        Err(_) => Err(AllocError),
    }
}

// Whether there is a member `why`.
fn says_why(value: &Value<'_>) -> bool
    ensures { result ≡ says_why (Some (value_view value.now)) }
{
    value.get(member::WHY).is_some()
}
