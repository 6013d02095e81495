//! Laws of encoding and decoding.

ghost use Rattle.pdu_codec.specs.Laws.{ReadsWhatIsWritten};

/// For every PDU that fits its fields, the written octets spell it and are read as that PDU.
pub fn round_trip()
    ensures { ReadsWhatIsWritten }
{}
