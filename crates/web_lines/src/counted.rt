//! Families that count lines.
ghost use Rattle.std.specs.Prelude.{◌≡◌, ◌++◌, OnOk, flat_map};
ghost use Rattle.web_lines.specs.Document.{count_of_kind};
ghost use Rattle.web_lines.specs.Families.{head_of, states_head};
ghost use Rattle.web_lines.specs.Metrics.{bare_text, counts_text, files_text, head_text, hindered_text, outbox_text, reading_text, state_text, states_text, storing_text};

use crate::families::{Family, push_head};
use crate::hindered::count_hindered;
use crate::kind::Kind;
use crate::labels::{Label, Labels, push_sample};
use crate::lines::Line;
use crate::state::{STATES, State, count_of, states_of};
use std::alloc::{AllocError, Global};

/// Adds how many transactions are in each state, and how many files wait, are being read, are being stored, or couldn't
/// be stored so far.
pub(crate) fn push_counted(
    alloc: Global,
    text: &mut Vec<u8>,
    lines: &[Line<'_>],
) -> Result<(), AllocError>
    ensures { OnOk result (text.new.items ≡ text.old.items ++ counts_text lines.now) }
{
    let states = states_of(alloc, lines)?;
    push_states(text, states.as_slice())?;
    push_files(alloc, text, lines)
}

// Adds how many files wait, how many are being read, how many are being stored, and how many couldn't be stored so far.
fn push_files(alloc: Global, text: &mut Vec<u8>, lines: &[Line<'_>]) -> Result<(), AllocError>
    ensures { OnOk result (text.new.items ≡ text.old.items ++ files_text lines.now) }
{
    push_outbox(text, lines)?;
    push_reading(text, lines)?;
    push_storing(text, lines)?;
    push_hindered(alloc, text, lines)
}

// Adds how many transactions are in each state.
fn push_states(text: &mut Vec<u8>, states: &[State]) -> Result<(), AllocError>
    ensures { OnOk result (text.new.items ≡ text.old.items ++ states_text states.now) }
{
    push_states_head(text)?;
    push_each_state(text, states, STATES.as_slice())
}

// Adds how many transactions are in each of these states.
fn push_each_state(text: &mut Vec<u8>, states: &[State], all: &[State]) -> Result<(), AllocError>
    ensures { OnOk result (text.new.items ≡ text.old.items ++ flat_map (state_text states.now) all.now) }
{
    for state in all {
        push_state(text, states, *state)?;
    }
    Ok(())
}

// Adds the two lines above these numbers.
fn push_states_head(text: &mut Vec<u8>) -> Result<(), AllocError>
    ensures { OnOk result (text.new.items ≡ text.old.items ++ head_text states_head) }
{
    push_head(
        text,
        Family::Gauge(
            "cfdp_transactions",
            "Transactions by state: of each lane, the one that it runs or ran last.",
        ),
    )
}

// Adds how many transactions are in a state.
fn push_state(text: &mut Vec<u8>, states: &[State], state: State) -> Result<(), AllocError>
    ensures { OnOk result (text.new.items ≡ text.old.items ++ state_text states.now state) }
{
    let label = Label {
        name: "state",
        value: state.name(),
    };
    push_sample(
        text,
        "cfdp_transactions",
        Labels::One(label),
        count_of(states, state),
    )
}

// Adds how many files wait in the outbox.
fn push_outbox(text: &mut Vec<u8>, lines: &[Line<'_>]) -> Result<(), AllocError>
    ensures { OnOk result (text.new.items ≡ text.old.items ++ outbox_text lines.now) }
{
    let family = Family::Gauge("cfdp_outbox_files", "Files that wait in the outbox.");
    push_bare(text, family, count_lines(lines, Kind::Queued))
}

// Adds how many files are being read.
fn push_reading(text: &mut Vec<u8>, lines: &[Line<'_>]) -> Result<(), AllocError>
    ensures { OnOk result (text.new.items ≡ text.old.items ++ reading_text lines.now) }
{
    let family = Family::Gauge("cfdp_reading_files", "Files that are being read for Puts.");
    push_bare(text, family, count_lines(lines, Kind::Reading))
}

// Adds how many received files are being stored, or couldn't be stored so far.
fn push_storing(text: &mut Vec<u8>, lines: &[Line<'_>]) -> Result<(), AllocError>
    ensures { OnOk result (text.new.items ≡ text.old.items ++ storing_text lines.now) }
{
    let family = Family::Gauge(
        "cfdp_storing_files",
        "Received files that are being stored, or could not be stored so far.",
    );
    push_bare(text, family, count_lines(lines, Kind::Storing))
}

// Adds how many received files couldn't be stored so far.
fn push_hindered(alloc: Global, text: &mut Vec<u8>, lines: &[Line<'_>]) -> Result<(), AllocError>
    ensures { OnOk result (text.new.items ≡ text.old.items ++ hindered_text lines.now) }
{
    let count = count_hindered(alloc, lines)?;
    let family = Family::Gauge(
        "cfdp_hindered_files",
        "Received files that could not be stored so far.",
    );
    push_bare(text, family, count)
}

// Adds a family with one number, which has no labels.
fn push_bare(text: &mut Vec<u8>, family: Family, number: u64) -> Result<(), AllocError>
    ensures { OnOk result (text.new.items ≡ text.old.items ++ bare_text (head_of family) number) }
{
    push_head(text, family)?;
    push_sample(text, family.name(), Labels::Bare, number)
}

/// How many lines are of a kind.
pub(crate) fn count_lines(lines: &[Line<'_>], kind: Kind) -> u64
    ensures { result ≡ count_of_kind kind lines.now }
{
    let mut count = 0u64;
    for line in lines {
        if line.kind.place() == kind.place() {
            count += 1;
        }
    }
    count
}
