//! Constructors for the PDUs that the two ends of a transaction send. Sizes and offsets below 2^32 fit their fields
//! with the large file flag and without it.

use crate::bodies::{Ack, Eof, FileData, Finished, KeepAlive, Metadata, Nak};
use crate::pdu::{Body, Header, Pdu};
use crate::sizes::{has_location, word};
use cfdp_types::Boxed;

impl Pdu {
    ghost use Rattle.std.specs.Prelude.{◌≡◌, ◌≤◌, ◌<◌, ◌^◌, length};
    ghost use Rattle.cfdp_types.specs.Put.{IsName, AreMessages};
    ghost use Rattle.pdu_values.specs.declared.pdu.Body.TheVariants as body;
    ghost use Rattle.pdu_values.specs.Spelling.{HeaderFits, NakFits, file_data_limit, requests_limit};

    /// An EOF PDU.
    pub fn eof(header: Header, eof: Eof) -> Pdu
        requires header { HeaderFits header }
        requires size { eof.size < 2 ^ 32 }
        ensures { result ≡ record { header = header; body = body.Eof eof } }
    {
        let _code = eof.condition.code();
        let _checksum = word(eof.checksum);
        let _location = has_location(eof.location);
        Pdu::new(header, Body::Eof(eof))
    }

    /// A Finished PDU.
    pub fn finished(header: Header, finished: Finished) -> Pdu
        requires { HeaderFits header }
        ensures { result ≡ record { header = header; body = body.Finished finished } }
    {
        let _code = finished.condition.code();
        let _location = has_location(finished.location);
        Pdu::new(header, Body::Finished(finished))
    }

    /// An ACK PDU.
    pub fn ack(header: Header, ack: Ack) -> Pdu
        requires { HeaderFits header }
        ensures { result ≡ record { header = header; body = body.Ack ack } }
    {
        let _code = ack.condition.code();
        Pdu::new(header, Body::Ack(ack))
    }

    /// A Metadata PDU.
    pub fn metadata(header: Header, metadata: Boxed<Metadata>) -> Pdu
        requires header { HeaderFits header }
        requires size { metadata.size < 2 ^ 32 }
        requires source_name { IsName metadata.source_name }
        requires destination_name { IsName metadata.destination_name }
        requires messages { AreMessages metadata.messages }
        ensures { result ≡ record { header = header; body = body.Metadata metadata } }
    {
        let content = metadata.get();
        let _number = content.checksum_type.number();
        Pdu::new(header, Body::Metadata(metadata))
    }

    /// A NAK PDU.
    pub fn nak(header: Header, nak: Nak) -> Pdu
        requires header { HeaderFits header }
        requires fits { NakFits 4 nak }
        requires few { length nak.requests ≤ requests_limit }
        ensures { result ≡ record { header = header; body = body.Nak nak } }
    {
        Pdu::new(header, Body::Nak(nak))
    }

    /// A Keep Alive PDU.
    pub fn keep_alive(header: Header, keep_alive: KeepAlive) -> Pdu
        requires header { HeaderFits header }
        requires progress { keep_alive.progress < 2 ^ 32 }
        ensures { result ≡ record { header = header; body = body.KeepAlive keep_alive } }
    {
        Pdu::new(header, Body::KeepAlive(keep_alive))
    }

    /// A File Data PDU.
    pub fn file_data(header: Header, file_data: FileData) -> Pdu
        requires header { HeaderFits header }
        requires offset { file_data.offset < 2 ^ 32 }
        requires few { length file_data.octets ≤ file_data_limit }
        ensures { result ≡ record { header = header; body = body.FileData file_data } }
    {
        Pdu::new(header, Body::FileData(file_data))
    }
}
