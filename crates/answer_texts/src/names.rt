//! The printed names of indications and of their values.
ghost use Rattle.std.specs.Prelude.{◌≡◌};
ghost use Rattle.answer_texts.specs.ToldTexts.{indication_name, delivery_name, status_name, phase_name};

use cfdp_types::{Delivery, FileStatus};
use indications::{Indication, Phase};

/// The printed name of an indication.
pub fn indication_name(said: &Indication) -> &'static str
    ensures { result.now ≡ indication_name said.now }
{
    match said {
        Indication::Transaction => "Transaction",
        Indication::EofSent => "EOF-Sent",
        Indication::EofRecv => "EOF-Recv",
        Indication::TransactionFinished { .. } => "Transaction-Finished",
        Indication::MetadataRecv(_) => "Metadata-Recv",
        Indication::FileSegmentRecv { .. } => "File-Segment-Recv",
        Indication::Suspended { .. } => "Suspended",
        Indication::Resumed { .. } => "Resumed",
        Indication::Report { .. } => "Report",
        Indication::Fault { .. } => "Fault",
        Indication::Abandoned { .. } => "Abandoned",
    }
}

/// The printed name of a delivery code: whether the receiver has the whole file.
pub fn delivery_name(delivery: Delivery) -> &'static str
    ensures { result.now ≡ delivery_name delivery }
{
    match delivery {
        Delivery::Complete => "complete",
        Delivery::Incomplete => "incomplete",
    }
}

/// The printed name of a file status: what became of the file.
pub fn status_name(status: FileStatus) -> &'static str
    ensures { result.now ≡ status_name status }
{
    match status {
        FileStatus::Discarded => "discarded",
        FileStatus::Rejected => "rejected",
        FileStatus::Retained => "retained",
        FileStatus::Unreported => "unreported",
    }
}

/// The printed name of a transaction's phase.
pub fn phase_name(phase: Phase) -> &'static str
    ensures { result.now ≡ phase_name phase }
{
    match phase {
        Phase::Active => "active",
        Phase::Suspended => "suspended",
        Phase::Storing => "storing",
        Phase::Closing => "closing",
    }
}
