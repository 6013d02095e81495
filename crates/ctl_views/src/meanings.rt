//! What refusals say of their datagrams, in words.

/// What a refusal with this name says of the datagram, for octets that aren't a PDU by the number of their fault. None for
/// names that this program doesn't know.
pub(crate) fn refusal_words(name: &str, fault: Option<u64>) -> Option<&'static str> {
    let words = match name {
        "DecodeFault" => return fault.and_then(fault_words),
        "ForeignSource" => "its address isn't one that datagrams are taken from",
        "JournalFull" => "the transaction takes no more events",
        "LaneBusy" => "the lane runs another transaction, and no room was left to park",
        "ModeMismatch" => "PDUs of one transaction differ in their class",
        "NoMemory" => "memory ran out",
        "NoRoute" => "the source is in no remote table that names a user",
        "NoTransaction" => "no transaction with this number was opened here",
        "NotForUs" => "it is addressed to another entity",
        "OldTransaction" => "the transaction has ended, or a later one was opened in its lane",
        "QueueFull" => "the user has to take indications first",
        "SeqExhausted" => "the lane has no sequence number left",
        "Storing" => "the file store's answer is awaited",
        "TooLarge" => "the file is larger than the entity takes",
        "WrongDirection" => "its direction doesn't fit its kind",
        "WrongState" => "the transaction's state doesn't allow it",
        _ => return None,
    };
    Some(words)
}

// What is wrong with octets that aren't a PDU.
fn fault_words(fault: u64) -> Option<&'static str> {
    let words = match fault {
        1 => "too short for a header",
        2 => "its version isn't 001: something stands in front of the PDU",
        3 => "it has a CRC, which has to be switched off",
        5 => "its length isn't the one that it names",
        6 => "its directive is unknown",
        7 => "one of its fields is cut, or something follows the last",
        8 => "Metadata without a file name",
        _ => return None,
    };
    Some(words)
}
