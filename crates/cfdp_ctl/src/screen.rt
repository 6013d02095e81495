//! What is printed, on the output and on the standard error.
use crate::fault::CtlFault;
use ctl_views::{Page, Tone};
use std::alloc::{AllocError, Global};
use std::io::Write;

// How many columns a table has by default.
const COLUMNS: usize = 100;

/// The outputs of the program.
#[derive(Drop)]
pub(crate) struct Screen<W: Drop, E: Drop> {
    writer: W,
    errors: E,
    /// Whether the output is a terminal.
    pub(crate) is_terminal: bool,
    /// Whether the standard error is a terminal, so that progress is shown there.
    pub(crate) shows_progress: bool,
    /// Whether somebody can be asked: the standard input and the standard error are terminals.
    pub(crate) can_ask: bool,
    // How many lines of progress are shown now.
    standing: usize,
    /// Whether colours are printed.
    pub(crate) is_coloured: bool,
    /// How many columns a table has.
    pub(crate) width: usize,
}

impl<W: Write + Drop, E: Write + Drop> Screen<W, E> {
    /// Outputs on which nothing was printed yet.
    pub(crate) fn new(
        writer: W,
        errors: E,
        is_terminal: bool,
        shows_progress: bool,
    ) -> Screen<W, E> {
        Screen {
            writer,
            errors,
            is_terminal,
            shows_progress,
            can_ask: false,
            standing: 0,
            is_coloured: false,
            width: COLUMNS,
        }
    }

    /// Prints octets as they are.
    pub(crate) fn print(&mut self, octets: &[u8]) -> Result<(), CtlFault> {
        if self.writer.write_all(octets).is_err() || self.writer.flush().is_err() {
            return Err(CtlFault::Output);
        }
        Ok(())
    }

    /// Prints lines that were received: as they are, but on a terminal without characters that it would obey.
    pub(crate) fn print_lines(&mut self, alloc: Global, lines: &[u8]) -> Result<(), CtlFault> {
        if !self.is_terminal {
            return self.print(lines);
        }
        let text = String::from_utf8_lossy(alloc, lines)?;
        let page = page_of(alloc, text.as_str())?;
        self.print_page(alloc, &page)
    }

    /// Prints a line that was received, after a word, as `print_lines` does.
    pub(crate) fn print_line(
        &mut self,
        alloc: Global,
        word: &str,
        line: &[u8],
    ) -> Result<(), CtlFault> {
        let mut octets = Vec::new(alloc);
        octets.extend_from_slice(word.as_bytes())?;
        octets.extend_from_slice(line)?;
        octets.extend_from_slice(b"\n")?;
        self.print_lines(alloc, octets.as_slice())
    }

    /// Prints a page.
    pub(crate) fn print_page(&mut self, alloc: Global, page: &Page) -> Result<(), CtlFault> {
        let mut octets = Vec::new(alloc);
        page.push_to(&mut octets, self.is_coloured)?;
        self.print(octets.as_slice())
    }

    /// Prints a page in place of the one before, on a terminal.
    pub(crate) fn print_over(&mut self, alloc: Global, page: &Page) -> Result<(), CtlFault> {
        if !self.is_terminal {
            return self.print_page(alloc, page);
        }
        let mut octets = Vec::new(alloc);
        octets.extend_from_slice(b"\x1b[?7l\x1b[H\x1b[J")?;
        page.push_to(&mut octets, self.is_coloured)?;
        octets.extend_from_slice(b"\x1b[?7h")?;
        self.print(octets.as_slice())
    }

    /// Shows lines of progress on the standard error, in place of those shown now.
    pub(crate) fn show_progress(
        &mut self,
        alloc: Global,
        page: &Page,
        count: usize,
    ) -> Result<(), CtlFault> {
        let mut octets = Vec::new(alloc);
        octets.extend_from_slice(b"\x1b[?7l")?;
        page.push_to(&mut octets, false)?;
        octets.extend_from_slice(b"\x1b[?7h")?;
        self.clear_progress();
        if self.errors.write_all(octets.as_slice()).is_ok() {
            self.standing = count;
        }
        Ok(())
    }

    /// Removes the lines of progress from the standard error.
    pub(crate) fn clear_progress(&mut self) {
        for _ in 0..self.standing {
            let _said = self.errors.write_all(b"\x1b[1A\x1b[2K");
        }
        self.standing = 0;
    }

    /// Prints one line on the standard error, whatever is in it. If that fails, the line is lost.
    pub(crate) fn complain_line(&mut self, alloc: Global, line: &str) {
        if let Ok(octets) = one_line(alloc, line) {
            let _said = self.errors.write_all(octets.as_slice());
        }
    }

    /// Prints lines on the standard error. If that fails, they are lost.
    pub(crate) fn complain(&mut self, alloc: Global, lines: &str) {
        self.clear_progress();
        if let Ok(octets) = complaint(alloc, lines) {
            let _said = self.errors.write_all(octets.as_slice());
        }
    }
}

// Lines as a page. The last one needs no line feed.
fn page_of(alloc: Global, text: &str) -> Result<Page, AllocError> {
    let mut page = Page::new(alloc);
    if text.is_empty() {
        return Ok(page);
    }
    for line in text.strip_suffix('\n').unwrap_or(text).split('\n') {
        page.push_line(Tone::Plain, line)?;
    }
    Ok(page)
}

// The octets of lines for the standard error.
fn complaint(alloc: Global, lines: &str) -> Result<Vec<u8>, AllocError> {
    let mut octets = Vec::new(alloc);
    let page = page_of(alloc, lines)?;
    page.push_to(&mut octets, false)?;
    Ok(octets)
}

// The octets of one line for the standard error.
fn one_line(alloc: Global, line: &str) -> Result<Vec<u8>, AllocError> {
    let mut octets = Vec::new(alloc);
    let mut page = Page::new(alloc);
    page.push_line(Tone::Plain, line)?;
    page.push_to(&mut octets, false)?;
    Ok(octets)
}
