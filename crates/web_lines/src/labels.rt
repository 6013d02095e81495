//! Numbers in Prometheus' text format.
ghost use Rattle.std.specs.Prelude.{◌≡◌, ◌++◌, OnOk};
ghost use Rattle.web_lines.specs.Labels.{said_label, said_labels};
ghost use Rattle.web_lines.specs.Metrics.{escaped, escaped_octet, label_text, labels_text, sample_text};

use crate::text::{push_decimal, push_text};
use std::alloc::AllocError;

/// A label of a number.
#[derive(Clone, Copy, Debug)]
pub(crate) struct Label<'a> {
    pub(crate) name: &'a str,
    pub(crate) value: &'a str,
}

/// The labels of a number.
#[derive(Clone, Copy, Debug)]
pub(crate) enum Labels<'a> {
    Bare,
    One(Label<'a>),
    Two(Label<'a>, Label<'a>),
    Three(Label<'a>, Label<'a>, Label<'a>),
}

// Adds an octet of a label's value.
fn push_escaped_octet(text: &mut Vec<u8>, octet: u8) -> Result<(), AllocError>
    ensures { OnOk result (text.new.items ≡ text.old.items ++ escaped_octet octet) }
{
    if octet == b'\\' {
        text.extend_from_slice(b"\\\\".as_slice())
    } else if octet == b'"' {
        text.extend_from_slice(b"\\\"".as_slice())
    } else if octet == b'\n' {
        text.extend_from_slice(b"\\n".as_slice())
    } else {
        text.push(octet)?;
        Ok(())
    }
}

// Adds a label's value, with a backslash in front of each backslash, quote and line feed, which becomes an `n`.
fn push_escaped(text: &mut Vec<u8>, value: &[u8]) -> Result<(), AllocError>
    ensures { OnOk result (text.new.items ≡ text.old.items ++ escaped value.now) }
{
    for octet in value {
        push_escaped_octet(text, *octet)?;
    }
    Ok(())
}

// Adds a label.
fn push_label(text: &mut Vec<u8>, label: Label<'_>) -> Result<(), AllocError>
    ensures { OnOk result (text.new.items ≡ text.old.items ++ label_text (said_label label.entry)) }
{
    push_text(text, label.name)?;
    push_text(text, "=\"")?;
    push_escaped(text, label.value.as_bytes())?;
    push_text(text, "\"")
}

// Adds labels in their braces, if there are any.
#[tactic(auto, unfolding(crate::specs::Metrics::labels_text))]
fn push_labels(text: &mut Vec<u8>, labels: Labels<'_>) -> Result<(), AllocError>
    ensures { OnOk result (text.new.items ≡ text.old.items ++ labels_text (said_labels labels.entry)) }
{
    match labels {
        Labels::Bare => Ok(()),
        Labels::One(label) => {
            push_text(text, "{")?;
            push_label(text, label)?;
            push_text(text, "}")
        }
        Labels::Two(first, second) => {
            push_text(text, "{")?;
            push_label(text, first)?;
            push_text(text, ",")?;
            push_label(text, second)?;
            push_text(text, "}")
        }
        Labels::Three(first, second, third) => {
            push_text(text, "{")?;
            push_label(text, first)?;
            push_text(text, ",")?;
            push_label(text, second)?;
            push_text(text, ",")?;
            push_label(text, third)?;
            push_text(text, "}")
        }
    }
}

/// Adds the line of one number.
#[tactic(auto, unfolding(crate::specs::Metrics::sample_text))]
pub(crate) fn push_sample(
    text: &mut Vec<u8>,
    name: &str,
    labels: Labels<'_>,
    number: u64,
) -> Result<(), AllocError>
    ensures { OnOk result (text.new.items ≡ text.old.items ++ sample_text name.now (said_labels labels.entry) number) }
{
    push_text(text, name)?;
    push_labels(text, labels)?;
    push_text(text, " ")?;
    push_decimal(text, number)?;
    push_text(text, "\n")
}
