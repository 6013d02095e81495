//! Lines of events with their levels.
ghost use Rattle.std.specs.Prelude.{◌≡◌, ◌++◌, OnOk};
ghost use Rattle.event_levels.specs.Levels.{labelled};

use crate::level::Level;
use std::alloc::AllocError;

// The octets that end a line: a brace and a line feed.
const END_OCTETS: usize = 2;

/// Adds an event's line with its level as the last member. If memory runs out, a part of it may have been added.
pub fn push_labelled(text: &mut Vec<u8>, line: &[u8], level: Level) -> Result<(), AllocError>
    ensures { OnOk result (text.new.items ≡ text.old.items ++ labelled level line.now) }
{
    let rest = line.len().saturating_sub(END_OCTETS);
    text.extend_from_slice(&line[..rest])?;
    text.extend_from_slice(b",\"level\":\"")?;
    text.extend_from_slice(level.name().as_bytes())?;
    text.extend_from_slice(b"\"}\n")
}
