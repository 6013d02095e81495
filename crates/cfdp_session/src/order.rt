//! A user's request to send a file, without its messages.
ghost use Rattle.std.specs.Prelude.{◌≡◌, IfOk, map};

use cfdp_types::{Class, EntityId, Octets, PutFault, PutRequest};
use std::alloc::{AllocError, Global};

/// The file to send and its destination, as in a Put request. It may exceed a Put request's limits.
#[derive(Clone, Copy)]
pub struct Order<'a> {
    pub destination: EntityId,
    pub class: Class,
    /// Whether the receiver is asked for a Finished PDU in class 1.
    pub closure: bool,
    pub source_name: &'a [u8],
    pub destination_name: &'a [u8],
    pub file: &'a [u8],
}

impl Order<'_> {
    ghost use Rattle.std.specs.Prelude.{◌≡◌, ◌⊎◌, IfOk, IfErr};
    ghost use Rattle.cfdp_types.specs.Put.{put_fault};
    ghost use Rattle.cfdp_session.specs.Orders.{put_of};

    /// Makes the Put request with these messages.
    pub(crate) fn put(&self, alloc: Global, messages: &[Octets]) -> Result<PutRequest, PutFault>
        ensures made { IfOk result (λ put. put ≡ put_of self.now messages.now) }
        ensures refused { IfErr result (λ fault. (fault ≡ PutFault.NoMemory)
            ⊎ (put_fault self.now.source_name.now self.now.destination_name.now messages.now ≡ Some fault)) }
    {
        let slices = slices_of(alloc, messages)?;
        let put = PutRequest::new(
            alloc,
            self.destination,
            self.class,
            self.source_name,
            self.destination_name,
            slices.as_slice(),
            self.file,
        )?;
        Ok(put.with_closure(self.closure))
    }
}

// The messages as slices.
fn slices_of(alloc: Global, messages: &[Octets]) -> Result<Vec<&[u8]>, AllocError>
    ensures { IfOk result (λ slices. map (λ slice. slice.now) slices.items ≡ messages.now) }
{
    let mut slices = Vec::with_capacity(alloc, messages.len())?;
    for message in messages {
        slices.push(message.as_slice())?;
    }
    Ok(slices)
}
