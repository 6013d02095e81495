//! The completion check: examining the file so far.
ghost use Rattle.std.specs.Prelude.{◌≡◌};
ghost use Rattle.receiver_parts.specs.FileChange.{covered_after, word_after};
ghost use Rattle.receiver_parts.specs.Finding.{finding_of, is_unsupported_type, is_null_type};
ghost use Rattle.receiver_parts.specs.ControlBlock.{IsSmall};

use crate::control::ControlBlock;
use crate::file_change::FileChange;
use crate::received_file::ReceivedFile;
use cfdp_types::{ChecksumType, Condition};

/// The result of examining the file so far.
#[derive(Clone, Copy, PartialEq, Eq)]
pub enum Finding {
    /// No EOF was received, and there is no fault.
    Nothing,
    /// There is a fault with this condition.
    Faulty(Condition),
    /// The file is complete, and its checksum agrees.
    Whole,
    /// An EOF was received, but the file is not complete.
    Waits,
}

/// Examines the file with a change: whether its checksum type is supported, its size, whether all of it was received,
/// and its checksum. The type is None before the Metadata is received.
pub fn look(
    checksum_type: Option<ChecksumType>,
    current: &ControlBlock,
    file: &ReceivedFile,
    change: &FileChange,
) -> Finding
    requires { IsSmall current.now }
    ensures { result ≡ finding_of checksum_type current.now.eof current.now.progress (covered_after file.now change.now)
        (word_after file.now change.now) }
{
    if is_unsupported(checksum_type) {
        return Finding::Faulty(Condition::UNSUPPORTED_CHECKSUM_TYPE);
    }
    let Some(eof) = current.eof else {
        return Finding::Nothing;
    };
    if eof.size < u64::from(current.progress) {
        return Finding::Faulty(Condition::FILE_SIZE_ERROR);
    }
    if checksum_type.is_none() || !file.is_full_after(change, eof.size as u32) {
        return Finding::Waits;
    }
    if is_null(checksum_type) || file.checksum_after(change) == eof.checksum {
        Finding::Whole
    } else {
        Finding::Faulty(Condition::FILE_CHECKSUM_FAILURE)
    }
}

fn is_unsupported(checksum_type: Option<ChecksumType>) -> bool
    ensures { result ≡ is_unsupported_type checksum_type }
{
    match checksum_type {
        None => false,
        Some(checksum_type) => {
            checksum_type != ChecksumType::MODULAR && checksum_type != ChecksumType::NULL
        }
    }
}

// Whether the file has no checksum.
fn is_null(checksum_type: Option<ChecksumType>) -> bool
    ensures { result ≡ is_null_type checksum_type }
{
    match checksum_type {
        None => false,
        Some(checksum_type) => checksum_type == ChecksumType::NULL,
    }
}
