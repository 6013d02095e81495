//! Texts of a user's indications. Each function appends to `text`; after an `Err` the text is not to be used.
ghost use Rattle.std.specs.Prelude.{◌≡◌, ◌++◌, IfOk, OnOk, string_bytes, codes, decimal};
ghost use Rattle.answer_texts.specs.ToldTexts.{bundle_text, line_head, indication_text, operands_text, finished_text, metadata_text, segment_text, report_text, fault_text, messages_text, hex_word};

use crate::names::{delivery_name, indication_name, phase_name, status_name};
use cfdp_types::{Condition, Delivery, EntityId, FileStatus, Messages, Octets};
use indications::{Bundle, Indication, Phase, ReceivedMetadata};
use std::alloc::{AllocError, Global};

/// Appends a line for each indication of a bundle for the user with this name.
pub fn push_bundle(
    alloc: Global,
    text: &mut String,
    name: &str,
    bundle: &Bundle,
) -> Result<(), AllocError>
    ensures { OnOk result (string_bytes text.new
        ≡ string_bytes text.old ++ bundle_text name.now bundle.now) }
{
    for indication in bundle.inds.as_slice() {
        push_head(text, name, bundle)?;
        push_indication(alloc, text, indication)?;
        text.push_str("\n")?;
    }
    Ok(())
}

fn push_head(text: &mut String, name: &str, bundle: &Bundle) -> Result<(), AllocError>
    ensures { OnOk result (string_bytes text.new ≡ string_bytes text.old ++ line_head name.now bundle.now) }
{
    let source = bundle.key.source.0;
    let seq = bundle.key.seq;
    text.push_str(name)?;
    push_value(text, source)?;
    push_value(text, seq)?;
    text.push_str(" ")
}

fn push_indication(alloc: Global, text: &mut String, said: &Indication) -> Result<(), AllocError>
    ensures { OnOk result (string_bytes text.new
        ≡ string_bytes text.old ++ indication_text said.now) }
{
    text.push_str(indication_name(said))?;
    push_operands(alloc, text, said)
}

// Appends an indication's operands, which follow its name.
fn push_operands(alloc: Global, text: &mut String, said: &Indication) -> Result<(), AllocError>
    ensures { OnOk result (string_bytes text.new
        ≡ string_bytes text.old ++ operands_text said.now) }
{
    match said {
        Indication::Transaction | Indication::EofSent | Indication::EofRecv => Ok(()),
        Indication::TransactionFinished {
            condition,
            delivery,
            status,
        } => push_finished(text, *condition, *delivery, *status),
        Indication::MetadataRecv(metadata) => push_received(alloc, text, metadata.get()),
        Indication::FileSegmentRecv { offset, length } => push_segment(text, *offset, *length),
        Indication::Suspended { condition } => push_value(text, u64::from(condition.code())),
        Indication::Resumed { progress } => push_value(text, u64::from(*progress)),
        Indication::Report { phase, progress } => push_report(text, *phase, *progress),
        Indication::Fault {
            condition,
            progress,
        } => { push_fault(text, *condition, *progress) }
        Indication::Abandoned {
            condition,
            progress,
        } => { push_fault(text, *condition, *progress) }
    }
}

// Appends the operands of a Metadata-Recv.
fn push_received(
    alloc: Global,
    text: &mut String,
    metadata: &ReceivedMetadata,
) -> Result<(), AllocError>
    ensures { OnOk result (string_bytes text.new ≡ string_bytes text.old ++ (metadata_text metadata.now.source
        metadata.now.size metadata.now.source_name metadata.now.destination_name ++ messages_text metadata.now.messages)) }
{
    let ReceivedMetadata {
        source,
        size,
        source_name,
        destination_name,
        messages,
    } = metadata;
    push_metadata(alloc, text, *source, *size, source_name, destination_name)?;
    push_messages(alloc, text, messages)
}

fn push_finished(
    text: &mut String,
    condition: Condition,
    delivery: Delivery,
    status: FileStatus,
) -> Result<(), AllocError>
    ensures { OnOk result (string_bytes text.new
        ≡ string_bytes text.old ++ finished_text condition delivery status) }
{
    push_value(text, u64::from(condition.code()))?;
    push_word(text, delivery_name(delivery))?;
    push_word(text, status_name(status))
}

fn push_metadata(
    alloc: Global,
    text: &mut String,
    source: EntityId,
    size: u64,
    source_name: &Octets,
    destination_name: &Octets,
) -> Result<(), AllocError>
    ensures { OnOk result (string_bytes text.new
        ≡ string_bytes text.old ++ metadata_text source size source_name.now destination_name.now) }
{
    let from = hex_word(alloc, source_name)?;
    let to = hex_word(alloc, destination_name)?;
    push_value(text, source.0)?;
    push_value(text, size)?;
    push_word(text, from.as_str())?;
    push_word(text, to.as_str())
}

fn push_segment(text: &mut String, offset: u32, octets: u32) -> Result<(), AllocError>
    ensures { OnOk result (string_bytes text.new
        ≡ string_bytes text.old ++ segment_text offset octets) }
{
    push_value(text, u64::from(offset))?;
    push_value(text, u64::from(octets))
}

fn push_report(text: &mut String, phase: Phase, progress: u32) -> Result<(), AllocError>
    ensures { OnOk result (string_bytes text.new
        ≡ string_bytes text.old ++ report_text phase progress) }
{
    push_word(text, phase_name(phase))?;
    push_value(text, u64::from(progress))
}

fn push_fault(text: &mut String, condition: Condition, progress: u32) -> Result<(), AllocError>
    ensures { OnOk result (string_bytes text.new
        ≡ string_bytes text.old ++ fault_text condition progress) }
{
    push_value(text, u64::from(condition.code()))?;
    push_value(text, u64::from(progress))
}

fn push_messages(alloc: Global, text: &mut String, messages: &Messages) -> Result<(), AllocError>
    ensures { OnOk result (string_bytes text.new
        ≡ string_bytes text.old ++ messages_text messages.now) }
{
    for message in messages.as_slice() {
        let word = hex_word(alloc, message)?;
        push_word(text, word.as_str())?;
    }
    Ok(())
}

// Appends a space and a number.
fn push_value(text: &mut String, number: u64) -> Result<(), AllocError>
    ensures { OnOk result (string_bytes text.new ≡ string_bytes text.old ++ (codes " " ++ decimal number)) }
{
    let mut digits = itoa::Buffer::new();
    text.push_str(" ")?;
    text.push_str(digits.format(number))
}

// Appends a space and a word.
fn push_word(text: &mut String, word: &str) -> Result<(), AllocError>
    ensures { OnOk result (string_bytes text.new ≡ string_bytes text.old ++ (codes " " ++ word.now)) }
{
    text.push_str(" ")?;
    text.push_str(word)
}

// Octets in hex, or a dash if there are none.
fn hex_word(alloc: Global, octets: &Octets) -> Result<String, AllocError>
    ensures { IfOk result (λ word. string_bytes word ≡ hex_word octets.now) }
{
    let octets = octets.as_slice();
    if octets.is_empty() {
        String::from_str(alloc, "-")
    } else {
        hex::encode(alloc, octets)
    }
}
