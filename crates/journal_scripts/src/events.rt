//! Rows of events. Each function appends to `text`; after an `Err` the text is not to be used.
ghost use Rattle.std.specs.Prelude.{◌≡◌, [], ◌++◌, IfOk, OnOk, string_bytes};
ghost use Rattle.journal_scripts.specs.Rows.{answer_word, asked_words, event_text, is_plain_event, kind_word, on_words, pdu_words, row_text};
ghost use Rattle.txn_events.specs.declared.event.What.TheVariants as what;

use crate::puts::push_put;
use cfdp_types::{TimerKind, TxnKey};
use pdu_codec::{Pdu, encode};
use std::alloc::{AllocError, Global};
use txn_events::{Event, What};

/// Adds the lines of an event at a lane of the user with this name, and returns whether lines can have that event.
/// Lines can't have a put with messages, or with a name that is not a word of ASCII: then nothing is added.
pub fn push_event(
    alloc: Global,
    text: &mut String,
    name: &str,
    lane: usize,
    event: &Event,
) -> Result<bool, AllocError>
    ensures plain { IfOk result (λ plain. plain ≡ is_plain_event event.now) }
    ensures added { OnOk result (string_bytes text.new ≡ string_bytes text.old ++ event_text name.now lane event.now) }
{
    match event {
        Event::Put(put, _) => push_put(alloc, text, name, lane, put),
        Event::On(key, what) => {
            push_what(alloc, text, name, *key, what)?;
            Ok(true)
        }
    }
}

// Adds the row of what happens to a transaction that has begun.
fn push_what(
    alloc: Global,
    text: &mut String,
    name: &str,
    key: TxnKey,
    what: &What,
) -> Result<(), AllocError>
    ensures { OnOk result (string_bytes text.new ≡ string_bytes text.old ++ row_text (on_words name.now key what.now)) }
{
    match what {
        What::Cancel => push_asked(text, "cancel", name, key),
        What::Suspend => push_asked(text, "suspend", name, key),
        What::Resume => push_asked(text, "resume", name, key),
        What::Report => push_asked(text, "report", name, key),
        What::Abandon => push_asked(text, "abandon", name, key),
        What::Pump => push_pump(text, key),
        What::Pdu(pdu) => push_pdu(alloc, text, pdu),
        What::Timer(kind, stamp) => push_timer(text, key, *kind, *stamp),
        What::Stored(stamp, kept) => push_stored(text, key, *stamp, *kept),
    }
}

fn push_asked(text: &mut String, word: &str, name: &str, key: TxnKey) -> Result<(), AllocError>
    ensures { OnOk result (string_bytes text.new ≡ string_bytes text.old ++ row_text (asked_words word.now name.now key)) }
{
    let source = key.source.0;
    let seq = key.seq;
    writeln!(text, "{word} {name} {source} {seq}")
}

fn push_pump(text: &mut String, key: TxnKey) -> Result<(), AllocError>
    ensures { OnOk result (string_bytes text.new ≡ string_bytes text.old ++ row_text (on_words [] key what.Pump)) }
{
    let source = key.source.0;
    let seq = key.seq;
    writeln!(text, "pump {source} {seq}")
}

fn push_pdu(alloc: Global, text: &mut String, pdu: &Pdu) -> Result<(), AllocError>
    ensures { OnOk result (string_bytes text.new ≡ string_bytes text.old ++ row_text (pdu_words pdu.now)) }
{
    let mut octets = Vec::new(alloc);
    encode(pdu, &mut octets)?;
    let digits = hex::encode(alloc, octets)?;
    text.push_str("pdu ")?;
    text.push_str(digits.as_str())?;
    text.push_str("\n")
}

fn kind_word(kind: TimerKind) -> &'static str
    ensures { result.now ≡ kind_word kind }
{
    match kind {
        TimerKind::Ack => "ack",
        TimerKind::Nak => "nak",
        TimerKind::Check => "check",
        TimerKind::Inactivity => "inactivity",
    }
}

fn push_timer(text: &mut String, key: TxnKey, kind: TimerKind, stamp: u32) -> Result<(), AllocError>
    ensures { OnOk result (string_bytes text.new ≡ string_bytes text.old ++ row_text (on_words [] key (what.Timer kind stamp))) }
{
    let source = key.source.0;
    let seq = key.seq;
    let kind = kind_word(kind);
    writeln!(text, "timer {source} {seq} {kind} {stamp}")
}

fn answer_word(kept: bool) -> &'static str
    ensures { result.now ≡ answer_word kept }
{
    if kept { "yes" } else { "no" }
}

fn push_stored(text: &mut String, key: TxnKey, stamp: u32, kept: bool) -> Result<(), AllocError>
    ensures { OnOk result (string_bytes text.new ≡ string_bytes text.old ++ row_text (on_words [] key (what.Stored stamp kept))) }
{
    let source = key.source.0;
    let seq = key.seq;
    let answer = answer_word(kept);
    writeln!(text, "stored {source} {seq} {stamp} {answer}")
}
