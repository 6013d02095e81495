//! Laws of every history of two ends and a disk, where no PDU is altered or forged.

ghost use Rattle.ends_disk.specs.Histories.{StandsWhenTold};

/// Where a sender indicates a complete delivery, the file that it put, and no other, may be found on the receiver's
/// disk under a path for its name, after any power cut and until a step names that path.
pub fn stands_when_told()
    ensures { StandsWhenTold }
{}
