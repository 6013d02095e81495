//! The lines of a status as rows of tables.
use crate::columns::{Column, ENTITY, FAILING_LOG, LAYOUTS, Layout, NOTE, Rows};
use crate::ends::end_tone;
use crate::fields::{is_set, moment_in, text_in};
use crate::page::Tone;
use crate::parts::{Look, NO_LOOK, Part, push_parts};
use crate::seen::{Seen, look_at};
use json::Value;
use station_names::{kind, member, word};
use std::alloc::{AllocError, Global};

/// A row of a table.
#[derive(Drop)]
pub(crate) struct Row {
    pub(crate) tone: Tone,
    /// The moment of the last event in milliseconds, if it is known.
    pub(crate) last: u64,
    pub(crate) cells: Vec<String>,
}

/// A table with its rows.
#[derive(Drop)]
pub(crate) struct Table {
    pub(crate) layout: Layout,
    pub(crate) rows: Vec<Row>,
}

/// The lines above the tables, and the tables.
#[derive(Drop)]
pub(crate) struct Tables {
    pub(crate) heads: Vec<String>,
    pub(crate) tables: Vec<Table>,
}

impl Tables {
    /// Tables without rows.
    pub(crate) fn new(alloc: Global) -> Result<Tables, AllocError> {
        let mut tables = Vec::new(alloc);
        for layout in LAYOUTS.as_slice() {
            let table = Table {
                layout: *layout,
                rows: Vec::new(alloc),
            };
            if tables.push(table).is_err() {
                return Err(AllocError);
            }
        }
        Ok(Tables {
            heads: Vec::new(alloc),
            tables,
        })
    }
}

/// Adds a line of a status to the table of its kind.
pub(crate) fn push_record(
    alloc: Global,
    tables: &mut Tables,
    value: &Value<'_>,
    seen: &Seen,
    next: &mut Seen,
) -> Result<(), AllocError> {
    match text_in(value, member::KIND) {
        Some(kind::ENTITY) => push_head(alloc, tables, value, ENTITY.as_slice()),
        Some(kind::LOG) => push_log(alloc, tables, value),
        Some(kind::NOTE) => push_head(alloc, tables, value, NOTE.as_slice()),
        Some(kind::TRANSACTION) => push_transaction(alloc, tables, value, seen, next),
        Some(kind) => push_row(alloc, tables, Rows::Of(kind), value, NO_LOOK),
        None => Ok(()),
    }
}

fn push_log(alloc: Global, tables: &mut Tables, value: &Value<'_>) -> Result<(), AllocError> {
    if is_set(value, member::FAILING) {
        push_head(alloc, tables, value, FAILING_LOG.as_slice())
    } else {
        Ok(())
    }
}

// Adds a transaction. Of one under way, notes what is seen for the next look.
fn push_transaction(
    alloc: Global,
    tables: &mut Tables,
    value: &Value<'_>,
    seen: &Seen,
    next: &mut Seen,
) -> Result<(), AllocError> {
    if text_in(value, member::STATE) == Some(word::ENDED) {
        return push_row(alloc, tables, Rows::Ended, value, NO_LOOK);
    }
    let look = look_at(value, seen, next)?;
    push_row(alloc, tables, Rows::Of(kind::TRANSACTION), value, look)
}

// Adds a line above the tables.
fn push_head(
    alloc: Global,
    tables: &mut Tables,
    value: &Value<'_>,
    parts: &[Part],
) -> Result<(), AllocError> {
    let mut line = String::new(alloc);
    push_parts(alloc, &mut line, value, parts, NO_LOOK)?;
    match tables.heads.push(line) {
        Ok(()) => Ok(()),
        Err(_) => Err(AllocError),
    }
}

// Adds a row to the table for such rows, if there is one.
fn push_row(
    alloc: Global,
    tables: &mut Tables,
    rows: Rows<'_>,
    value: &Value<'_>,
    look: Look,
) -> Result<(), AllocError> {
    for table in tables.tables.as_mut_slice() {
        if table.layout.rows == rows {
            return push_row_to(alloc, table, value, look);
        }
    }
    Ok(())
}

fn push_row_to(
    alloc: Global,
    table: &mut Table,
    value: &Value<'_>,
    look: Look,
) -> Result<(), AllocError> {
    let row = Row {
        tone: tone_of(table.layout.rows, value),
        last: moment_in(value, member::LAST).unwrap_or(0),
        cells: cells_of(alloc, value, table.layout.columns, look)?,
    };
    match table.rows.push(row) {
        Ok(()) => Ok(()),
        Err(_) => Err(AllocError),
    }
}

// The tone of a row: by how a transaction ended, bad if there is a notice, faint if the link is held.
fn tone_of(rows: Rows<'_>, value: &Value<'_>) -> Tone {
    match rows {
        Rows::Ended => end_tone(value),
        Rows::Of(kind::TRANSACTION) if text_in(value, member::NOTICE).is_some() => Tone::Bad,
        Rows::Of(kind::REMOTE) if is_set(value, member::HELD) => Tone::Faint,
        Rows::Of(_) => Tone::Plain,
    }
}

fn cells_of(
    alloc: Global,
    value: &Value<'_>,
    columns: &[Column],
    look: Look,
) -> Result<Vec<String>, AllocError> {
    let mut cells = Vec::new(alloc);
    for column in columns {
        let mut cell = String::new(alloc);
        push_parts(alloc, &mut cell, value, column.parts(), look)?;
        if cells.push(cell).is_err() {
            return Err(AllocError);
        }
    }
    Ok(cells)
}
