//! Kinds of refusals, with the last case of each.
ghost use Rattle.std.specs.Prelude.{◌≡◌, ◌≤◌, ◌+◌, ◌-◌, min, length};
ghost use Rattle.entity_parts.specs.Refusals.{name_of, number_of};
ghost use Rattle.program_tallies.specs.Kinds.{fault_of, kind_of, name_of_kind, number_of_kind};

use entity_parts::EntityRefusal;
use entity_routing::RouteRefusal;
use pdu_reading::DecodeFault;
use std::net::SocketAddr;
use txn_events::Refusal;

/// How many octets of a refused datagram are kept.
pub const SHOWN_OCTETS: usize = 64;

/// A kind of refusal.
#[derive(Clone, Copy, Debug, PartialEq, Eq)]
pub enum RefusalKind {
    /// No lane receives the event, for this reason.
    Route(RouteRefusal),
    /// The lane refuses the event, for this reason.
    Lane(Refusal),
    /// The lock guards another lane.
    WrongLane,
    /// The datagram's source address is not in the configuration, and datagrams from such sources are dropped.
    ForeignSource,
}

impl RefusalKind {
    /// The kind of an entity's refusal.
    pub fn of(refusal: &EntityRefusal) -> RefusalKind
        ensures kind { result ≡ kind_of refusal.now }
        ensures number { number_of_kind result ≡ number_of refusal.now }
        ensures name { name_of_kind result ≡ name_of refusal.now }
    {
        match refusal {
            EntityRefusal::Route(why) => RefusalKind::Route(*why),
            EntityRefusal::Lane(refused) => RefusalKind::Lane(refused.why),
            EntityRefusal::WrongLane => RefusalKind::WrongLane,
        }
    }

    /// The number printed for the kind.
    pub fn number(self) -> u8
        ensures { result ≡ number_of_kind self }
    {
        match self {
            RefusalKind::Route(why) => why.number(),
            RefusalKind::Lane(why) => why.number(),
            RefusalKind::WrongLane => EntityRefusal::WrongLane.number(),
            RefusalKind::ForeignSource => 27,
        }
    }

    /// The name printed for the kind.
    pub fn name(self) -> &'static str
        ensures { result.now ≡ name_of_kind self }
    {
        match self {
            RefusalKind::Route(why) => why.name(),
            RefusalKind::Lane(why) => why.name(),
            RefusalKind::WrongLane => EntityRefusal::WrongLane.name(),
            RefusalKind::ForeignSource => "ForeignSource",
        }
    }

    /// The decode fault, for a datagram that isn't a PDU.
    pub fn fault(self) -> Option<DecodeFault>
        ensures { result ≡ fault_of self }
    {
        match self {
            RefusalKind::Route(RouteRefusal::DecodeFault(fault)) => Some(fault),
            _ => None,
        }
    }
}

/// The refusals of one kind.
#[derive(Clone, Copy)]
pub struct RefusalCase {
    pub kind: RefusalKind,
    /// How many there were.
    pub count: u64,
    /// How many of them an event has reported.
    pub reported: u64,
    /// The moment of the last one, in milliseconds since 1970.
    pub last: u64,
    /// Where the last one's datagram came from; `None` for a command.
    pub from: Option<SocketAddr>,
    octets: [u8; SHOWN_OCTETS],
    length: usize,
}

impl RefusalCase {
    /// A kind without refusals so far.
    pub(crate) fn new(kind: RefusalKind) -> RefusalCase {
        RefusalCase {
            kind,
            count: 0,
            reported: 0,
            last: 0,
            from: None,
            octets: [0; SHOWN_OCTETS],
            length: 0,
        }
    }

    /// Notes one more refusal, of a datagram with these octets, or of a command, without octets.
    pub(crate) fn note(&mut self, at: u64, from: Option<SocketAddr>, octets: &[u8])
        ensures kind { self.new.kind ≡ self.old.kind }
        ensures count { self.new.count ≡ min (self.old.count + 1) 18446744073709551615 }
        ensures last { self.new.last ≡ at }
        ensures from { self.new.from ≡ from }
    {
        self.count = self.count.saturating_add(1);
        self.last = at;
        self.from = from;
        let length = octets.len().min(SHOWN_OCTETS);
        self.octets[..length].copy_from_slice(&octets[..length]);
        self.length = length;
    }

    /// The first octets of the last one's datagram, at most `SHOWN_OCTETS`.
    pub fn octets(&self) -> &[u8]
        ensures { length result.now ≤ SHOWN_OCTETS }
    {
        self.octets.get(..self.length).unwrap_or(&[])
    }

    /// How many of them no event has reported yet.
    pub fn unreported(&self) -> u64
        ensures { result ≡ self.now.count - self.now.reported }
    {
        self.count.saturating_sub(self.reported)
    }
}
