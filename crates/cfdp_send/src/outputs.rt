//! What the program prints while it works: its user's indications, and its progress.
ghost use Rattle.std.specs.Prelude.{◌≡◌, ◌++◌, OnOk};
ghost use Rattle.std.specs.String.{string_bytes};
ghost use Rattle.cfdp_send.specs.Progress.{awaited_text, percent_of, progress_text};

use program_start::{ProgramFault, print};
use std::alloc::{AllocError, Global};
use std::io::Write;

/// Where a run prints its user's indications and, if wanted, a line of progress, which is overwritten until something
/// else is printed.
#[derive(Drop)]
pub struct Outputs<W: Drop, P: Drop> {
    writer: W,
    progress: Option<P>,
    /// The whole percent that the line of progress shows, while there is one.
    shown: Option<u64>,
}

impl<W: Write + Drop, P: Write + Drop> Outputs<W, P> {
    /// Nothing was printed yet.
    pub fn new(writer: W, progress: Option<P>) -> Outputs<W, P> {
        Outputs {
            writer,
            progress,
            shown: None,
        }
    }

    /// Prints the user's indications below the line of progress.
    pub(crate) fn tell(&mut self, text: &str) -> Result<(), ProgramFault> {
        if !text.is_empty() {
            self.end_line();
        }
        print(&mut self.writer, text)
    }

    /// Shows how much of a file of `size` octets was sent, unless the line shows that percent already. If the line
    /// can't be printed, no other is tried.
    pub(crate) fn show(&mut self, alloc: Global, reach: u64, size: u64) {
        let Some(progress) = &mut self.progress else {
            return;
        };
        let percent = percent_of(reach, size);
        if self.shown == Some(percent) {
            return;
        }
        let mut text = String::new(alloc);
        let is_made = push_progress(&mut text, reach, size).is_ok()
            && push_awaited(&mut text, reach, size).is_ok();
        if is_made && print(progress, text.as_str()).is_ok() {
            self.shown = Some(percent);
        } else {
            self.progress = None;
        }
    }

    /// Ends the line of progress, if there is one.
    pub(crate) fn end_line(&mut self) {
        if self.shown.take().is_none() {
            return;
        }
        if let Some(progress) = &mut self.progress {
            let _lost = print(progress, "\n");
        }
    }
}

// How much of a file was sent, in whole percent.
fn percent_of(reach: u64, size: u64) -> u64
    ensures { result ≡ percent_of reach size }
{
    if size == 0 {
        100
    } else {
        reach.saturating_mul(100) / size
    }
}

// Adds the line of progress.
fn push_progress(text: &mut String, reach: u64, size: u64) -> Result<(), AllocError>
    ensures { OnOk result (string_bytes text.new ≡ string_bytes text.old ++ progress_text reach size) }
{
    write!(text, "\r{reach} of {size} octets sent")
}

// Adds that the program waits for the end, once the whole file was sent.
fn push_awaited(text: &mut String, reach: u64, size: u64) -> Result<(), AllocError>
    ensures { OnOk result (string_bytes text.new ≡ string_bytes text.old ++ awaited_text reach size) }
{
    if reach < size {
        Ok(())
    } else {
        text.push_str(", waiting for the end")
    }
}
