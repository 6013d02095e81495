//! Laws of every schedule of two ends, where no PDU is altered or forged.

ghost use Rattle.ends_schedules.specs.ScheduleLaws.{BeginsAsSchedule, DepositsAreThePut, ImagesAreThePut, TellsWhatWasStored};

/// Each beginning of a schedule is a schedule, so that the laws of schedules hold at each moment.
pub fn beginnings()
    ensures { BeginsAsSchedule }
{}

/// Each file that the receiver hands to its file store, and each image that it gives while a deposit waits, is the
/// file that was put, with both names and all octets. The proof does not rely on the checksum.
pub fn two_ends()
    ensures deposits { DepositsAreThePut }
    ensures images { ImagesAreThePut }
{}

/// The sender indicates a complete delivery only after the receiver's file store has said that it keeps the file, and
/// the file that it was given is the one that was put.
pub fn told_after_store()
    ensures { TellsWhatWasStored }
{}
