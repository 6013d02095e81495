//! The lines as numbers for Prometheus.
ghost use Rattle.std.specs.Prelude.{◌≡◌, ◌++◌, IfOk, OnOk};
ghost use Rattle.web_lines.specs.Metrics.{IsMetrics, up_text};

use crate::counted::push_counted;
use crate::families::{Family, push_head};
use crate::labels::{Labels, push_sample};
use crate::lines::read_lines;
use crate::series::{push_told, push_told_counts};
use std::alloc::{AllocError, Global};

/// The numbers of a station's status, in Prometheus' text format. A line that isn't a JSON object of a known kind
/// counts for nothing.
pub fn to_metrics(alloc: Global, status: &str) -> Result<Vec<u8>, AllocError>
    ensures { IfOk result (λ text. IsMetrics status.now text.items) }
{
    let lines = read_lines(alloc, status)?;
    let mut text = Vec::new(alloc);
    push_up(&mut text, 1)?;
    push_told(alloc, &mut text, lines.as_slice())?;
    push_counted(alloc, &mut text, lines.as_slice())?;
    push_told_counts(alloc, &mut text, lines.as_slice())?;
    Ok(text)
}

/// What `to_metrics` returns if the station can't be asked: that it isn't up.
pub fn no_metrics(alloc: Global) -> Result<Vec<u8>, AllocError>
    ensures { IfOk result (λ text. text.items ≡ up_text 0) }
{
    let mut text = Vec::new(alloc);
    push_up(&mut text, 0)?;
    Ok(text)
}

// Adds whether the station answers.
fn push_up(text: &mut Vec<u8>, is_up: u64) -> Result<(), AllocError>
    ensures { OnOk result (text.new.items ≡ text.old.items ++ up_text is_up) }
{
    push_head(
        text,
        Family::Gauge("cfdp_up", "Whether the station answers."),
    )?;
    push_sample(text, "cfdp_up", Labels::Bare, is_up)
}
