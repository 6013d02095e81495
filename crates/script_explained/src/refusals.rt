//! What each refusal means, in words.

/// What the refusal with this name means. None for octets that are not a PDU: the comment on their line says what they
/// lack.
pub(crate) fn refusal_words(name: &str) -> Option<&'static str> {
    let words = match name {
        "NoTransaction" => "no transaction with this number was opened here",
        "OldTransaction" => "the transaction has ended, or a later one was opened in its lane",
        "LaneBusy" => "the lane runs another transaction",
        "ModeMismatch" => "the PDU's mode is not the transaction's class",
        "StaleTimer" => "the timer does not run, or was armed again since",
        "StaleStored" => "no deposit with this stamp waits for an answer",
        "Storing" => "the file store's answer is awaited, and nothing else",
        "WrongState" => "the transaction's state does not allow this",
        "SeqExhausted" => "the lane has no sequence number left",
        "TooLarge" => "the file is larger than the entity supports",
        "JournalFull" => "the transaction takes no more events",
        "NoMemory" => "memory ran out",
        "QueueFull" => "the user's queue has no room for the indications",
        "NotForUs" => "the PDU is addressed to another entity",
        "WrongDirection" => "the PDU's direction does not fit its kind",
        "NoRoute" => "the source is no entity whose files go to a user",
        "NotYours" => "the transaction belongs to another user",
        "UnknownRemote" => "the configuration does not have the destination",
        "WrongLane" => "the lane is not that of the event",
        _ => return None,
    };
    Some(words)
}
