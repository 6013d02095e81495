//! What the server prints of an entity's responses: what a script prints, without the PDUs, which are sent.
ghost use Rattle.std.specs.Prelude.{◌≡◌, ◌++◌, OnOk};
ghost use Rattle.std.specs.String.{string_bytes};
ghost use Rattle.server_answers.specs.Answers.{bad_command_line, no_memory_line, taken_text, too_large_line, refusal_line, traced_text};

use answer_texts::{push_decode_fault, push_refusal, push_refused};
use cfdp_types::{Deposit, TxnKey};
use entity_routing::RouteRefusal;
use shared_entity::{EntityRefusal, Traced};
use std::alloc::{AllocError, Global};
use txn_events::Refusal;

/// Adds the lines for an event that a transaction took, a Put or another, with the file that it handed to the store, if
/// it did.
pub fn push_taken(
    text: &mut String,
    is_put: bool,
    key: TxnKey,
    deposit: Option<Deposit>,
) -> Result<(), AllocError>
    ensures { OnOk result (string_bytes text.new ≡ string_bytes text.old ++ taken_text is_put key deposit) }
{
    text.push_str("ok\n")?;
    if is_put {
        let source = key.source.0;
        let seq = key.seq;
        writeln!(text, "txn {source} {seq}")?;
    }
    if let Some(deposit) = deposit {
        let stamp = deposit.stamp;
        writeln!(text, "deposit {stamp}")?;
    }
    Ok(())
}

/// Adds the lines for what the entity refused.
pub fn push_entity_refusal(
    alloc: Global,
    text: &mut String,
    refusal: &EntityRefusal,
) -> Result<(), AllocError>
    ensures { OnOk result (string_bytes text.new ≡ string_bytes text.old ++ refusal_line refusal.now) }
{
    match refusal {
        EntityRefusal::Lane(refused) => push_refused(alloc, text, refused),
        EntityRefusal::Route(RouteRefusal::DecodeFault(fault)) => push_decode_fault(
            text,
            fault.number(),
        ),
        _ => push_refusal(text, refusal.number(), refusal.name()),
    }
}

/// Adds the line for a command for which memory ran out.
pub fn push_no_memory(text: &mut String) -> Result<(), AllocError>
    ensures { OnOk result (string_bytes text.new ≡ string_bytes text.old ++ no_memory_line) }
{
    push_refusal(text, Refusal::NoMemory.number(), Refusal::NoMemory.name())
}

/// Adds the line for a file that is too large to be sent.
pub fn push_too_large(text: &mut String) -> Result<(), AllocError>
    ensures { OnOk result (string_bytes text.new ≡ string_bytes text.old ++ too_large_line) }
{
    push_refusal(text, Refusal::TooLarge.number(), Refusal::TooLarge.name())
}

/// Adds the line for how far a transaction is.
pub fn push_traced(text: &mut String, traced: Traced) -> Result<(), AllocError>
    ensures { OnOk result (string_bytes text.new ≡ string_bytes text.old ++ traced_text traced) }
{
    let entries = traced.entries;
    if traced.ended {
        writeln!(text, "trace {entries} ended")
    } else {
        writeln!(text, "trace {entries} open")
    }
}

/// Adds the reply to a line that isn't a command.
pub fn push_bad_command(text: &mut String) -> Result<(), AllocError>
    ensures { OnOk result (string_bytes text.new ≡ string_bytes text.old ++ bad_command_line) }
{
    text.push_str("bad command\n")
}
