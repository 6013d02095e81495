//! Families with the numbers that are in lines.
ghost use Rattle.std.specs.Prelude.{OnOk, ◌++◌, map};
ghost use Rattle.web_lines.specs.Families.{count_rows, row_of, told_rows};
ghost use Rattle.web_lines.specs.Metrics.{AddsCounts, AddsLine, AddsLines, AddsRows, head_text};

use crate::counted::count_lines;
use crate::families::push_head;
use crate::kind::Kind;
use crate::labels::push_sample;
use crate::lines::Line;
use crate::place::labels_in;
use crate::told::{TOLD, Told};
use crate::told_counts::TOLD_COUNTS;
use json::{Scratch, Value};
use std::alloc::{AllocError, Global};

/// Adds all families whose numbers are in lines.
pub(crate) fn push_told(
    alloc: Global,
    text: &mut Vec<u8>,
    lines: &[Line<'_>],
) -> Result<(), AllocError>
    ensures { OnOk result (AddsRows told_rows lines.now text.old.items text.new.items) }
{
    push_families(alloc, text, lines, TOLD.as_slice())
}

/// Adds the families of a station that counts, if the lines are those of one.
pub(crate) fn push_told_counts(
    alloc: Global,
    text: &mut Vec<u8>,
    lines: &[Line<'_>],
) -> Result<(), AllocError>
    ensures { OnOk result (AddsCounts lines.now text.old.items text.new.items) }
{
    if count_lines(lines, Kind::Delivered) == 0 {
        return Ok(());
    }
    push_count_rows(alloc, text, lines)
}

// Adds the families of a station that counts.
fn push_count_rows(alloc: Global, text: &mut Vec<u8>, lines: &[Line<'_>]) -> Result<(), AllocError>
    ensures { OnOk result (AddsRows count_rows lines.now text.old.items text.new.items) }
{
    push_families(alloc, text, lines, TOLD_COUNTS.as_slice())
}

// Adds these families.
fn push_families(
    alloc: Global,
    text: &mut Vec<u8>,
    lines: &[Line<'_>],
    rows: &[Told],
) -> Result<(), AllocError>
    ensures { OnOk result (AddsRows (map row_of rows.now) lines.now text.old.items text.new.items) }
{
    let mut scratch = Scratch::new(alloc);
    for told in rows {
        push_family(alloc, text, lines, *told, &mut scratch)?;
    }
    Ok(())
}

// Adds a family with a number for each line of its kind that has one.
fn push_family(
    alloc: Global,
    text: &mut Vec<u8>,
    lines: &[Line<'_>],
    told: Told,
    scratch: &mut Scratch,
) -> Result<(), AllocError>
    ensures { OnOk result (AddsLines (row_of told) lines.now (text.old.items ++ head_text (row_of told).head) text.new.items) }
{
    push_head(text, told.0)?;
    for line in lines {
        push_number(alloc, text, *line, told, scratch)?;
    }
    Ok(())
}

// Adds the number of a line, if the line is of the family's kind and has one.
fn push_number(
    alloc: Global,
    text: &mut Vec<u8>,
    line: Line<'_>,
    told: Told,
    scratch: &mut Scratch,
) -> Result<(), AllocError>
    ensures { OnOk result (AddsLine (row_of told) line.entry text.old.items text.new.items) }
{
    if line.kind.place() != told.1.place() {
        return Ok(());
    }
    scratch.reserve(line.text.len())?;
    let Ok(value) = Value::parse(alloc, line.text, scratch) else {
        return Err(AllocError);
    };
    match (told.2.number_in(&value), labels_in(&value, told.1, told.2)) {
        (Some(number), Some(labels)) => push_sample(text, told.0.name(), labels, number),
        _ => Ok(()),
    }
}
