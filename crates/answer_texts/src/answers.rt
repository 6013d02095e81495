//! Texts of the answers to events. Each function appends to `text`; after an `Err` the text is not to be used.
ghost use Rattle.std.specs.Prelude.{◌≡◌, ◌++◌, OnOk, string_bytes};
ghost use Rattle.answer_texts.specs.AnswerTexts.{done_text, opened_text, pdus_text, pdu_text, deposit_text, refusal_text, fault_line, refused_text};

use cfdp_types::{Deposit, TxnKey};
use lane_table::{Done, Refused};
use pdu_codec::encode;
use pdu_values::Pdu;
use std::alloc::{AllocError, Global};
use txn_events::Pdus;

/// Appends the lines for an event that was accepted; for a Put, also the line of the transaction that it opened.
pub fn push_done(
    alloc: Global,
    text: &mut String,
    is_put: bool,
    done: &Done,
) -> Result<(), AllocError>
    ensures { OnOk result (string_bytes text.new ≡ string_bytes text.old ++ done_text is_put done.now) }
{
    text.push_str("ok\n")?;
    push_opened(text, is_put, done.key)?;
    push_pdus(alloc, text, &done.pdus)?;
    push_deposit(text, done.deposit)
}

fn push_opened(text: &mut String, is_put: bool, key: TxnKey) -> Result<(), AllocError>
    ensures { OnOk result (string_bytes text.new ≡ string_bytes text.old ++ opened_text is_put key) }
{
    if !is_put {
        return Ok(());
    }
    let source = key.source.0;
    let seq = key.seq;
    writeln!(text, "txn {source} {seq}")
}

fn push_deposit(text: &mut String, deposit: Option<Deposit>) -> Result<(), AllocError>
    ensures { OnOk result (string_bytes text.new ≡ string_bytes text.old ++ deposit_text deposit) }
{
    match deposit {
        None => Ok(()),
        Some(deposit) => {
            let stamp = deposit.stamp;
            writeln!(text, "deposit {stamp}")
        }
    }
}

fn push_pdus(alloc: Global, text: &mut String, pdus: &Pdus) -> Result<(), AllocError>
    ensures { OnOk result (string_bytes text.new ≡ string_bytes text.old ++ pdus_text pdus.now) }
{
    for pdu in pdus.as_slice() {
        push_pdu(alloc, text, "pdu", pdu)?;
    }
    Ok(())
}

fn push_pdu(alloc: Global, text: &mut String, word: &str, pdu: &Pdu) -> Result<(), AllocError>
    ensures { OnOk result (string_bytes text.new ≡ string_bytes text.old ++ pdu_text word.now pdu.now) }
{
    let mut octets = Vec::new(alloc);
    encode(pdu, &mut octets)?;
    let digits = hex::encode(alloc, octets)?;
    text.push_str(word)?;
    text.push_str(" ")?;
    text.push_str(digits.as_str())?;
    text.push_str("\n")
}

/// Appends the line for a refusal with a number and a name.
pub fn push_refusal(text: &mut String, number: u8, name: &str) -> Result<(), AllocError>
    ensures { OnOk result (string_bytes text.new ≡ string_bytes text.old ++ refusal_text number name.now) }
{
    writeln!(text, "refused {number} {name}")
}

/// Appends the line for octets that are not a PDU the entity accepts, with the number of the decode fault.
pub fn push_decode_fault(text: &mut String, number: u8) -> Result<(), AllocError>
    ensures { OnOk result (string_bytes text.new ≡ string_bytes text.old ++ fault_line number) }
{
    writeln!(text, "refused 20 DecodeFault {number}")
}

/// Appends the lines for an event that a lane refused, with the PDU that it sends back nevertheless, if there is one.
pub fn push_refused(alloc: Global, text: &mut String, refused: &Refused) -> Result<(), AllocError>
    ensures { OnOk result (string_bytes text.new ≡ string_bytes text.old ++ refused_text refused.now) }
{
    push_refusal(text, refused.why.number(), refused.why.name())?;
    match &refused.echo {
        None => Ok(()),
        Some(echo) => push_pdu(alloc, text, "echo", &echo.pdu()),
    }
}
