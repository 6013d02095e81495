ghost use Rattle.std.specs.Prelude.{◌≡◌, map};
ghost use Rattle.std.specs.List.{list_any};
ghost use Rattle.cfdp_types.specs.Put.{is_longer, put_fault, put_fault_number};
ghost use Rattle.cfdp_types.specs.declared.put_request.PutFault.TheVariants as faults;

use crate::key::EntityId;
use crate::limits::{MESSAGE_OCTETS, MESSAGES, NAME_OCTETS};
use crate::messages::Messages;
use crate::names::Class;
use crate::octets::Octets;
use std::alloc::{AllocError, Global};
use std::marker::Model;

/// Why a Put request can't be made. Where several apply, the first is reported.
#[derive(Clone, Copy, Debug, PartialEq, Eq)]
pub enum PutFault {
    /// A file name is empty.
    NoName = 1,
    /// A file name is longer than Metadata can hold.
    NameTooLong = 2,
    /// A message to the user is longer than Metadata can hold.
    MessageTooLong = 3,
    /// There are more messages than the entity supports.
    TooManyMessages = 4,
    /// Memory ran out.
    NoMemory = 5,
}

impl PutFault {
    /// The fault's number.
    pub fn number(self) -> u8
        ensures { result ≡ put_fault_number self }
    {
        self as u8
    }
}

impl From<AllocError> for PutFault {
    ghost from_gives = { λ _ fault. fault ≡ faults.NoMemory };

    fn from(_error: AllocError) -> PutFault {
        PutFault::NoMemory
    }
}

// The parts of a request.
#[derive(Debug, Drop)]
struct PutParts {
    destination: EntityId,
    class: Class,
    closure: bool,
    source_name: Octets,
    destination_name: Octets,
    messages: Messages,
    file: Octets,
}

/// A local user's request to send a file (CCSDS 727.0-B-5, 3.4.1). Contracts see the parts, which keep the
/// limits of names and messages. They have memory of their own, so that events stay small.
#[derive(Debug, Drop)]
pub struct PutRequest {
    parts: Box<PutParts>,
}

impl Model for PutRequest {
    ghost use Rattle.cfdp_types.specs.Put.{PutValue, IsPut};

    ghost Value = { PutValue };

    ghost view = { λ p. record {
      destination = p.parts.value.destination;
      class = p.parts.value.class;
      closure = p.parts.value.closure;
      source_name = p.parts.value.source_name;
      destination_name = p.parts.value.destination_name;
      messages = p.parts.value.messages;
      file = p.parts.value.file;
    } };

    ghost invariant = { λ p. IsPut (record {
      destination = p.parts.value.destination;
      class = p.parts.value.class;
      closure = p.parts.value.closure;
      source_name = p.parts.value.source_name;
      destination_name = p.parts.value.destination_name;
      messages = p.parts.value.messages;
      file = p.parts.value.file;
    }) };
}

impl PutRequest {
    ghost use Rattle.std.specs.Prelude.{◌≡◌, false, None, Some, Err, IfErr, IfOk, map};
    ghost use Rattle.cfdp_types.specs.Put.{AreMessages, IsName, IsPut, put_fault};

    /// A request without closure. Copies the names, the messages and the file.
    pub fn new(
        alloc: Global,
        destination: EntityId,
        class: Class,
        source_name: &[u8],
        destination_name: &[u8],
        messages: &[&[u8]],
        file: &[u8],
    ) -> Result<PutRequest, PutFault>
        ensures kept { IfOk result (λ request. request ≡ record {
          destination = destination;
          class = class;
          closure = false;
          source_name = source_name.now;
          destination_name = destination_name.now;
          messages = map (λ m. m.now) messages.now;
          file = file.now;
        }) }
        ensures refused { (fault : PutFault)
            → put_fault source_name.now destination_name.now (map (λ m. m.now) messages.now) ≡ Some fault
            → result ≡ Err fault }
        ensures memory { put_fault source_name.now destination_name.now (map (λ m. m.now) messages.now) ≡ None
            → IfErr result (λ fault. fault ≡ PutFault.NoMemory) }
    {
        if let Some(fault) = fault_of(source_name, destination_name, messages) {
            return Err(fault);
        }
        Ok(PutRequest::copied(
            alloc,
            destination,
            class,
            source_name,
            destination_name,
            messages,
            file,
        )?)
    }

    // Copies names, messages and file into a request; the caller has checked their limits.
    fn copied(
        alloc: Global,
        destination: EntityId,
        class: Class,
        source_name: &[u8],
        destination_name: &[u8],
        messages: &[&[u8]],
        file: &[u8],
    ) -> Result<PutRequest, AllocError>
        requires source { IsName source_name.now }
        requires destination { IsName destination_name.now }
        requires messages { AreMessages (map (λ m. m.now) messages.now) }
        ensures { IfOk result (λ request. request ≡ record {
          destination = destination;
          class = class;
          closure = false;
          source_name = source_name.now;
          destination_name = destination_name.now;
          messages = map (λ m. m.now) messages.now;
          file = file.now;
        }) }
    {
        let parts = PutParts {
            destination,
            class,
            closure: false,
            source_name: Octets::from_slice(alloc, source_name)?,
            destination_name: Octets::from_slice(alloc, destination_name)?,
            messages: Messages::from_slices(alloc, messages)?,
            file: Octets::from_slice(alloc, file)?,
        };
        Ok(PutRequest {
            parts: Box::new(alloc, parts)?,
        })
    }

    /// A copy of the request, which shares the octets.
    pub fn copy(&self) -> Result<PutRequest, AllocError>
        ensures { IfOk result (λ copy. copy ≡ self.now) }
    {
        let parts = PutParts {
            destination: self.parts.destination,
            class: self.parts.class,
            closure: self.parts.closure,
            source_name: self.parts.source_name.copy()?,
            destination_name: self.parts.destination_name.copy()?,
            messages: self.parts.messages.copy()?,
            file: self.parts.file.copy()?,
        };
        Ok(PutRequest {
            parts: Box::new(*Box::allocator(&self.parts), parts)?,
        })
    }

    /// This request with or without transaction closure, which asks a class 1 receiver for a Finished PDU. In class 2
    /// it changes nothing, as the receiver sends one unasked.
    pub fn with_closure(self, closure: bool) -> PutRequest
        ensures { result ≡ record self { closure = closure } }
    {
        let PutRequest { mut parts } = self;
        parts.closure = closure;
        PutRequest { parts }
    }

    /// This request with another file, whose octets are shared, not copied.
    pub fn with_file(self, file: Octets) -> PutRequest
        ensures { result ≡ record self { file = file } }
    {
        let PutRequest { mut parts } = self;
        parts.file = file;
        PutRequest { parts }
    }

    /// The receiving entity's ID.
    pub fn destination(&self) -> EntityId
        ensures { result ≡ self.now.destination }
    {
        self.parts.destination
    }

    /// The service class that the user requests.
    pub fn class(&self) -> Class
        ensures { result ≡ self.now.class }
    {
        self.parts.class
    }

    /// Whether the receiver is asked for a Finished PDU in class 1.
    pub fn closure(&self) -> bool
        ensures { result ≡ self.now.closure }
    {
        self.parts.closure
    }

    /// The file's name at the sender.
    pub fn source_name(&self) -> &Octets
        ensures name { result.now ≡ self.now.source_name }
        ensures range { IsName result.now }
    {
        &self.parts.source_name
    }

    /// The file's name at the receiver.
    pub fn destination_name(&self) -> &Octets
        ensures name { result.now ≡ self.now.destination_name }
        ensures range { IsName result.now }
    {
        &self.parts.destination_name
    }

    /// The messages to the receiving user, in order.
    pub fn messages(&self) -> &Messages
        ensures messages { result.now ≡ self.now.messages }
        ensures range { AreMessages result.now }
    {
        &self.parts.messages
    }

    /// The file's content.
    pub fn file(&self) -> &Octets
        ensures { result.now ≡ self.now.file }
    {
        &self.parts.file
    }
}

// The first fault of the names and messages.
#[tactic(auto, using(crate::proofs::PutLemmas::borrowed))]
fn fault_of(source_name: &[u8], destination_name: &[u8], messages: &[&[u8]]) -> Option<PutFault>
    ensures { result ≡ put_fault source_name.now destination_name.now (map (λ m. m.now) messages.now) }
{
    if source_name.is_empty() || destination_name.is_empty() {
        Some(PutFault::NoName)
    } else if source_name.len() > NAME_OCTETS || destination_name.len() > NAME_OCTETS {
        Some(PutFault::NameTooLong)
    } else if has_long_message(messages) {
        Some(PutFault::MessageTooLong)
    } else if messages.len() > MESSAGES {
        Some(PutFault::TooManyMessages)
    } else {
        None
    }
}

// Whether a message is too long for Metadata.
fn has_long_message(messages: &[&[u8]]) -> bool
    ensures { result ≡ list_any (λ m. is_longer MESSAGE_OCTETS m.now) messages.now }
{
    messages
        .iter()
        .any(|message| message.len() > MESSAGE_OCTETS)
}
