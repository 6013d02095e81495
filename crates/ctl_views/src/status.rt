//! Shows a status as tables, look by look.
use crate::columns::Rows;
use crate::fields::{moment_in, text_in, value_of};
use crate::page::{Page, Tone};
use crate::rows::{Table, Tables, push_record};
use crate::seen::Seen;
use crate::table::push_table;
use json::Scratch;
use station_names::{kind, member};
use std::alloc::{AllocError, Global};

// How many of the transactions that have ended are shown.
const ENDED: usize = 20;

/// What is remembered between two looks at a station's status.
#[derive(Drop)]
pub struct StatusView {
    alloc: Global,
    seen: Seen,
}

impl StatusView {
    /// Before any look.
    pub fn new(alloc: Global) -> StatusView {
        StatusView {
            alloc,
            seen: Seen::new(alloc),
        }
    }

    /// Lays out the lines of a status in `width` columns. Rates are those since the last look. A line that isn't a JSON
    /// object of a known kind is skipped.
    pub fn look(&mut self, lines: &str, width: usize) -> Result<Page, AllocError> {
        let mut tables = Tables::new(self.alloc)?;
        let mut next = Seen::new(self.alloc);
        let mut scratch = Scratch::new(self.alloc);
        for line in lines.split('\n') {
            take_line(
                self.alloc,
                line,
                &mut scratch,
                &mut tables,
                &self.seen,
                &mut next,
            )?;
        }
        self.seen = next;
        lay_out(self.alloc, &mut tables, width)
    }
}

// Adds a line to its table.
fn take_line(
    alloc: Global,
    line: &str,
    scratch: &mut Scratch,
    tables: &mut Tables,
    seen: &Seen,
    next: &mut Seen,
) -> Result<(), AllocError> {
    let Some(value) = value_of(alloc, line, scratch)? else {
        return Ok(());
    };
    if text_in(&value, member::KIND) == Some(kind::ENTITY) {
        next.now = moment_in(&value, member::NOW);
    }
    push_record(alloc, tables, &value, seen, next)
}

// Lays out all tables.
fn lay_out(alloc: Global, tables: &mut Tables, width: usize) -> Result<Page, AllocError> {
    let mut page = Page::new(alloc);
    push_heads(&mut page, tables.heads.as_slice())?;
    for table in tables.tables.as_mut_slice() {
        lay_out_one(alloc, &mut page, table, width)?;
    }
    Ok(page)
}

// Lays out a table; of the transactions that have ended only the last ones, the last first.
fn lay_out_one(
    alloc: Global,
    page: &mut Page,
    table: &mut Table,
    width: usize,
) -> Result<(), AllocError> {
    if matches!(table.layout.rows, Rows::Ended) {
        table.rows.sort_by_key(|row| u64::MAX - row.last)?;
        table.rows.truncate(ENDED);
    }
    push_table(alloc, page, table, width)
}

// Adds the lines above the tables, and an empty one.
fn push_heads(page: &mut Page, heads: &[String]) -> Result<(), AllocError> {
    if heads.is_empty() {
        return Ok(());
    }
    for line in heads {
        page.push_line(Tone::Plain, line.as_str())?;
    }
    page.end_line()
}
