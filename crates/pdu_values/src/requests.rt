ghost use Rattle.std.specs.Prelude.{◌≡◌, [], ◌∷◌, ◌++◌, ◌&&◌, IfOk, OnOk, OnErr, nat_eq};
ghost use Rattle.std.proofs.lemmas.Cmp.{lists_equiv, and_equiv, on_equiv};
ghost use Rattle.std.specs.Cmp as Cmp;
ghost use lib.Pointwise.{pointwise};
ghost use Rattle.pdu_values.specs.Requests.{RequestFits};

use crate::sizes::long_word;
use std::alloc::{AllocError, Global};
use std::marker::Model;

/// A segment request: the receiver asks for the octets from `start` to `end` - 1. `(0, 0)` asks for the Metadata
/// (CCSDS 727.0-B-5, 5.2.6).
#[derive(Clone, Copy, Debug, PartialEq, Eq)]
pub struct SegmentRequest {
    pub start: u64,
    pub end: u64,
}

/// The segment requests of a NAK PDU, in order. Contracts see the list of them.
#[derive(Clone, Debug, Drop)]
pub struct SegmentRequests {
    items: Vec<SegmentRequest>,
}

impl Model for SegmentRequests {
    ghost use Rattle.std.specs.Prelude.{List};
    ghost use Rattle.std.specs.List.{AllByRecursion};
    ghost use Rattle.pdu_values.specs.Requests.{RequestFits};
    ghost use Rattle.pdu_values.specs.declared.requests.SegmentRequest.{SegmentRequest};

    ghost Value = { List SegmentRequest };

    ghost view = { λ r. r.items.items };

    ghost invariant = { λ r. AllByRecursion (RequestFits 8) r.items.items };
}

impl SegmentRequests {
    ghost use Rattle.std.specs.Prelude.{◌≡◌, [], ◌∷◌, ◌++◌, IfOk, OnOk, OnErr};
    ghost use Rattle.std.specs.List.{AllByRecursion};
    ghost use Rattle.pdu_values.specs.Requests.{RequestFits};

    pub fn new(alloc: Global) -> SegmentRequests
        ensures { result ≡ [] }
    {
        SegmentRequests {
            items: Vec::new(alloc),
        }
    }

    /// An empty list with room for `capacity` requests.
    pub fn with_capacity(alloc: Global, capacity: usize) -> Result<SegmentRequests, AllocError>
        ensures { IfOk result (λ requests. requests ≡ []) }
    {
        Ok(SegmentRequests {
            items: Vec::with_capacity(alloc, capacity)?,
        })
    }

    pub fn as_slice(&self) -> &[SegmentRequest]
        ensures value { result.now ≡ self.now }
        ensures fits { AllByRecursion (RequestFits 8) self.now }
    {
        self.items.as_slice()
    }

    /// Adds a request at the end.
    pub fn push(&mut self, request: SegmentRequest) -> Result<(), AllocError>
        ensures ok { OnOk result (self.new ≡ self.old ++ request ∷ []) }
        ensures err { OnErr result (self.new ≡ self.old) }
    {
        self.items.push(sized(request))?;
        Ok(())
    }
}

// The request itself; the contract adds that its offsets fit eight octets.
fn sized(request: SegmentRequest) -> SegmentRequest
    ensures value { result ≡ request }
    ensures fits { RequestFits 8 result }
{
    SegmentRequest {
        start: long_word(request.start),
        end: long_word(request.end),
    }
}

impl PartialEq for SegmentRequests {
    ghost eq = { pointwise (λ x y. nat_eq x.start y.start && nat_eq x.end y.end) };

    ghost laws = { Cmp.partial_equiv_from_equiv (lists_equiv (
        and_equiv (on_equiv (λ r. r.start) Cmp.nat_eq_equiv) (on_equiv (λ r. r.end) Cmp.nat_eq_equiv))) };

    fn eq(&self, other: &SegmentRequests) -> bool {
        self.as_slice() == other.as_slice()
    }
}

impl Eq for SegmentRequests {
    ghost laws = { lists_equiv (
        and_equiv (on_equiv (λ r. r.start) Cmp.nat_eq_equiv) (on_equiv (λ r. r.end) Cmp.nat_eq_equiv)) };
}
