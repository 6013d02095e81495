//! Laws of each end alone: what a sender's PDUs say of its Put, and what a receiver delivers where all PDUs that it
//! received agree with a Put.

ghost use Rattle.ends_laws.specs.SenderLaws.{SendsItsPut, TellsWhatCame};
ghost use Rattle.ends_laws.specs.ReceiverLaws.{DepositsThePut, GivesThePut, SaysWhatIsKept};

/// All PDUs of a sender go toward the receiver, and what they say of the file is what the Put says: Metadata has its
/// size and both names, File Data the octets at their offsets, and an EOF without an error the size.
pub fn sends_its_put()
    ensures { SendsItsPut }
{}

/// A sender indicates a complete delivery only on receiving a Finished PDU with the same values.
pub fn tells_what_came()
    ensures { TellsWhatCame }
{}

/// Where all PDUs that a receiver received agree with a Put, each of its deposits is the Put's file.
pub fn deposits_the_put()
    ensures { DepositsThePut }
{}

/// Where all PDUs that a receiver received agree with a Put, each image that it gives is the Put's file.
pub fn gives_the_put()
    ensures { GivesThePut }
{}

/// All PDUs of a receiver go toward the sender, and it sends a Finished PDU of a complete delivery only once its
/// file store has kept the file.
pub fn says_what_is_kept()
    ensures { SaysWhatIsKept }
{}
