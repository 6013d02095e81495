//! Condition codes in words.

/// The meaning of a condition code, in words.
pub(crate) fn condition_words(code: u64) -> &'static str {
    match code {
        0 => "no error",
        1 => "positive ACK limit reached",
        2 => "keep alive limit reached",
        3 => "invalid transmission mode",
        4 => "filestore rejection",
        5 => "file checksum failure",
        6 => "file size error",
        7 => "NAK limit reached",
        8 => "inactivity detected",
        9 => "invalid file structure",
        10 => "check limit reached",
        11 => "unsupported checksum type",
        14 => "suspend request received",
        15 => "cancel request received",
        _ => "unknown condition",
    }
}
