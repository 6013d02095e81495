//! A script's lines and their answers in words. Each function appends to `text`; after an `Err` the text is not to be
//! used.
use crate::condition_words;
use crate::datagrams::push_pdu_comment;
use crate::refusals::refusal_words;
use hex::FromHexError;
use std::alloc::{AllocError, Global};

/// Adds a comment line for each thing that a line of a script and its answer say: the PDU that was received, and those
/// that are sent; a new transaction, a file to be stored, the condition of an indication, why something was refused.
pub fn push_comments(
    alloc: Global,
    text: &mut String,
    line: &str,
    answer: &str,
) -> Result<(), AllocError> {
    if let Some(digits) = line.strip_prefix("pdu ") {
        push_digits_comment(alloc, text, digits)?;
    }
    for said in answer.lines() {
        push_answer_comment(alloc, text, said)?;
    }
    Ok(())
}

// Adds what a line of an answer means, if there are words for it.
fn push_answer_comment(alloc: Global, text: &mut String, said: &str) -> Result<(), AllocError> {
    if let Some(digits) = said.strip_prefix("pdu ") {
        return push_digits_comment(alloc, text, digits);
    }
    if let Some(digits) = said.strip_prefix("echo ") {
        return push_digits_comment(alloc, text, digits);
    }
    if let Some(stamp) = said.strip_prefix("deposit ") {
        return writeln!(text, "# a file goes to the file store, with stamp {stamp}");
    }
    if let Some(key) = said.strip_prefix("txn ") {
        return push_key_comment(text, key);
    }
    if let Some(refusal) = said.strip_prefix("refused ") {
        return push_refusal_comment(text, refusal);
    }
    if said == "none" {
        return text.push_str("# no bundle waits\n");
    }
    match condition_of(said) {
        Some(0) => text.push_str("# no error\n"),
        Some(code) => {
            let words = condition_words(code);
            writeln!(text, "# condition {code}, {words}")
        }
        None => Ok(()),
    }
}

// Adds what a datagram in hex says.
fn push_digits_comment(alloc: Global, text: &mut String, digits: &str) -> Result<(), AllocError> {
    match hex::decode(alloc, digits.as_bytes()) {
        Ok(octets) => push_pdu_comment(alloc, text, octets.as_slice()),
        Err(FromHexError::OutOfMemory) => Err(AllocError),
        Err(_) => Ok(()),
    }
}

// Adds which transaction has begun.
fn push_key_comment(text: &mut String, key: &str) -> Result<(), AllocError> {
    match key.split_once(' ') {
        Some((source, seq)) => writeln!(text, "# transaction {seq} of entity {source} begins"),
        None => Ok(()),
    }
}

// Adds what a refusal means, by its number and its name.
fn push_refusal_comment(text: &mut String, refusal: &str) -> Result<(), AllocError> {
    let mut words = refusal.split(' ');
    let _number = words.next();
    match words.next().and_then(refusal_words) {
        Some(meaning) => writeln!(text, "# refused: {meaning}"),
        None => Ok(()),
    }
}

// The condition code of an indication that has one.
fn condition_of(said: &str) -> Option<u8> {
    let mut words = said.split(' ');
    let _user = words.next()?;
    let _source = words.next()?;
    let _seq = words.next()?;
    let name = words.next()?;
    let code = words.next()?;
    match name {
        "Transaction-Finished" | "Fault" | "Suspended" | "Abandoned" => code.parse::<u8>().ok(),
        _ => None,
    }
}
