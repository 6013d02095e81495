//! Refusals, in the form that lines show.
use pdu_codec::head_of;
use program_tallies::RefusalCase;
use station_lines::{Datagram, RefusedCase, RefusedPdu};
use std::alloc::{AllocError, Global};

/// The address that a case's datagram came from; `None` for a command.
pub(crate) fn origin_of(alloc: Global, case: &RefusalCase) -> Result<Option<String>, AllocError> {
    match case.from {
        None => Ok(None),
        Some(address) => {
            let mut text = String::new(alloc);
            write!(text, "{address}")?;
            Ok(Some(text))
        }
    }
}

/// A case with this count and this address of its datagram.
pub(crate) fn refused_case<'a>(
    case: &'a RefusalCase,
    origin: &'a Option<String>,
    count: u64,
) -> RefusedCase<'a> {
    RefusedCase {
        number: case.kind.number(),
        name: case.kind.name(),
        fault: match case.kind.fault() {
            Some(fault) => Some(fault.number()),
            None => None,
        },
        count,
        datagram: match origin {
            Some(from) => Some(Datagram {
                from: from.as_str(),
                octets: case.octets(),
            }),
            None => None,
        },
    }
}

/// What the datagram of a case says of its PDU; `None` for a command.
pub(crate) fn refused_pdu(case: &RefusedCase<'_>) -> Option<RefusedPdu<'static>> {
    let datagram = case.datagram?;
    match head_of(datagram.octets) {
        Some(head) => Some(RefusedPdu {
            key: Some(head.key),
            kind: head.kind.name(),
        }),
        None => Some(RefusedPdu {
            key: None,
            kind: "no PDU",
        }),
    }
}
