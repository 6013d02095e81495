//! Lays out tables in a given width.
use crate::columns::Column;
use crate::page::{Page, Tone};
use crate::rows::{Row, Table};
use crate::shown::columns_of;
use std::alloc::{AllocError, Global};

// How many columns separate two cells, and the fewest columns that a cut cell keeps.
const GAP: usize = 2;

const LEAST: usize = 12;

/// Lays out a table below its title in `width` columns; if it is too wide, its last column is cut. A table without rows
/// is left out.
pub(crate) fn push_table(
    alloc: Global,
    page: &mut Page,
    table: &Table,
    width: usize,
) -> Result<(), AllocError> {
    let (columns, rows) = (table.layout.columns, table.rows.as_slice());
    if rows.is_empty() {
        return Ok(());
    }
    let mut widths = widths_of(alloc, columns, rows)?;
    fit(&mut widths, width);
    page.push_line(Tone::Head, table.layout.title)?;
    push_heads(page, columns, widths.as_slice())?;
    for row in rows {
        push_row(page, columns, row, widths.as_slice())?;
    }
    page.end_line()
}

// How wide each column is.
fn widths_of(alloc: Global, columns: &[Column], rows: &[Row]) -> Result<Vec<usize>, AllocError> {
    let mut widths = Vec::new(alloc);
    for (place, column) in columns.iter().enumerate() {
        let mut widest = columns_of(column.head());
        for row in rows {
            if let Some(cell) = row.cells.get(place) {
                widest = widest.max(columns_of(cell.as_str()));
            }
        }
        if widths.push(widest).is_err() {
            return Err(AllocError);
        }
    }
    Ok(widths)
}

// Cuts the last column so that all columns fit.
fn fit(widths: &mut Vec<usize>, width: usize) {
    let mut total = 0usize;
    for one in widths.as_slice() {
        total = total.saturating_add(*one).saturating_add(GAP);
    }
    let excess = total.saturating_sub(width.saturating_add(GAP));
    if let Some(last) = widths.pop() {
        let cut = last.saturating_sub(excess).max(last.min(LEAST));
        let _room = widths.push(cut);
    }
}

fn push_heads(page: &mut Page, columns: &[Column], widths: &[usize]) -> Result<(), AllocError> {
    let mut left_over = widths.len();
    for (column, width) in columns.iter().zip(widths) {
        left_over = left_over.saturating_sub(1);
        push_cell(
            page,
            column,
            Tone::Faint,
            column.head(),
            *width,
            left_over == 0,
        )?;
    }
    page.end_line()
}

fn push_row(
    page: &mut Page,
    columns: &[Column],
    row: &Row,
    widths: &[usize],
) -> Result<(), AllocError> {
    let mut left_over = widths.len();
    for ((column, cell), width) in columns.iter().zip(row.cells.as_slice()).zip(widths) {
        left_over = left_over.saturating_sub(1);
        push_cell(
            page,
            column,
            row.tone,
            cell.as_str(),
            *width,
            left_over == 0,
        )?;
    }
    page.end_line()
}

// Adds a cell, and a gap after it if another cell follows.
fn push_cell(
    page: &mut Page,
    column: &Column,
    tone: Tone,
    text: &str,
    width: usize,
    is_last: bool,
) -> Result<(), AllocError> {
    if is_last && !column.is_right() && columns_of(text) <= width {
        return page.push(tone, text);
    }
    page.push_cell(tone, text, width, column.is_right())?;
    if is_last {
        Ok(())
    } else {
        page.push(Tone::Plain, "  ")
    }
}
