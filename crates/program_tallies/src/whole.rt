ghost use Rattle.std.specs.Prelude.{◌≡◌};
ghost use Rattle.program_tallies.specs.Whole.{is_whole};

use cfdp_types::{Condition, Delivery, FileStatus};

/// Whether a transaction that finished with these values has its whole file at its receiver.
pub fn is_whole(condition: Condition, delivery: Delivery, status: FileStatus) -> bool
    ensures { result ≡ is_whole condition delivery status }
{
    condition == Condition::NO_ERROR
        && (matches!(delivery, Delivery::Complete) && matches!(status, FileStatus::Retained))
}
