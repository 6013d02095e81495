ghost use Rattle.std.specs.Prelude.{◌≡◌, ◌↔◌, IsTrue};

use crate::fault_table::FaultTable;
use crate::key::EntityId;
use crate::limits::{ID_OCTETS, SEGMENT_OCTETS_LEAST, SEGMENT_OCTETS_MOST, TIMER_MILLISECONDS};
use crate::names::{Checksum, Role, TimerKind};
use std::marker::Model;

/// How long each timer of a transaction runs, in milliseconds.
#[derive(Clone, Copy, Debug, PartialEq, Eq)]
pub struct TimerLengths {
    pub ack: u32,
    pub nak: u32,
    pub check: u32,
    pub inactivity: u32,
}

impl TimerLengths {
    ghost use Rattle.std.specs.Prelude.{◌≡◌, ◌↔◌, IsTrue};
    ghost use Rattle.cfdp_types.specs.Params.{AreTimerLengths, IsTimerLength, timer_length};

    /// How long a timer of this kind runs, in milliseconds.
    pub fn of(&self, kind: TimerKind) -> u32
        ensures { result ≡ timer_length self.now kind }
    {
        match kind {
            TimerKind::Ack => self.ack,
            TimerKind::Nak => self.nak,
            TimerKind::Check => self.check,
            TimerKind::Inactivity => self.inactivity,
        }
    }

    fn are_in_range(&self) -> bool
        ensures { IsTrue result ↔ AreTimerLengths self.now }
    {
        let range = 1..=TIMER_MILLISECONDS;
        range.contains(&self.ack)
            && range.contains(&self.nak)
            && range.contains(&self.check)
            && range.contains(&self.inactivity)
    }
}

/// For each timer, the number of the expiration at which its fault is declared, counted from one.
#[derive(Clone, Copy, Debug, PartialEq, Eq)]
pub struct ExpirationLimits {
    pub ack: u8,
    pub nak: u8,
    pub check: u8,
}

impl ExpirationLimits {
    ghost use Rattle.std.specs.Prelude.{◌↔◌, IsTrue};
    ghost use Rattle.cfdp_types.specs.Params.{AreExpirationLimits};

    fn are_in_range(&self) -> bool
        ensures { IsTrue result ↔ AreExpirationLimits self.now }
    {
        self.ack > 0 && self.nak > 0 && self.check > 0
    }
}

/// How many octets the IDs and the sequence number in a PDU header have.
#[derive(Clone, Copy, Debug, PartialEq, Eq)]
pub struct HeaderLengths {
    /// Octets of an entity ID.
    pub entity_octets: u8,
    /// Octets of a transaction sequence number.
    pub sequence_octets: u8,
}

impl HeaderLengths {
    ghost use Rattle.std.specs.Prelude.{◌↔◌, IsTrue};
    ghost use Rattle.cfdp_types.specs.Params.{AreHeaderLengths};

    fn are_in_range(&self) -> bool
        ensures { IsTrue result ↔ AreHeaderLengths self.now }
    {
        let range = 1..=ID_OCTETS;
        range.contains(&self.entity_octets) && range.contains(&self.sequence_octets)
    }
}

/// The fault table of each role that an entity can have.
#[derive(Clone, Copy, Debug, PartialEq, Eq)]
pub struct FaultTables {
    pub send: FaultTable,
    pub receive_one: FaultTable,
    pub receive_two: FaultTable,
}

impl FaultTables {
    ghost use Rattle.std.specs.Prelude.{◌≡◌, ◌↔◌, IsTrue};
    ghost use Rattle.cfdp_types.specs.Params.{AreFaultTables, table_for};

    /// The table for a role.
    pub fn of(&self, role: Role) -> FaultTable
        ensures { result ≡ table_for self.now role }
    {
        match role {
            Role::Send => self.send,
            Role::RecvOne => self.receive_one,
            Role::RecvTwo => self.receive_two,
        }
    }

    fn are_of_their_roles(&self) -> bool
        ensures { IsTrue result ↔ AreFaultTables self.now }
    {
        self.send.role() == Role::Send
            && self.receive_one.role() == Role::RecvOne
            && self.receive_two.role() == Role::RecvTwo
    }
}

/// The parameters of the transactions with one remote entity, as a plain record whose ranges are not checked.
#[derive(Clone, Copy, Debug, PartialEq, Eq)]
pub struct ParamsParts {
    /// This entity's ID.
    pub local: EntityId,
    /// The lengths of the numbers in the headers that this entity writes.
    pub lengths: HeaderLengths,
    /// The most file octets in a File Data PDU that this entity sends.
    pub segment_octets: u16,
    /// How long each timer runs.
    pub timers: TimerLengths,
    /// Which expiration of each timer is a fault, counted from one.
    pub limits: ExpirationLimits,
    /// The fault table of each role.
    pub tables: FaultTables,
    /// The checksum of the files that this entity sends.
    pub checksum: Checksum,
}

/// The parameters of the transactions with one remote entity. Contracts see the parts, each of which is in
/// its range.
#[derive(Clone, Copy, Debug, PartialEq, Eq)]
pub struct Params {
    parts: ParamsParts,
}

impl Model for Params {
    ghost use Rattle.cfdp_types.specs.declared.params.ParamsParts.{ParamsParts};
    ghost use Rattle.cfdp_types.specs.Params.{IsParams};

    ghost Value = { ParamsParts };

    ghost view = { λ p. p.parts };

    ghost invariant = { λ p. IsParams p.parts };

    ghost inverse = { λ v. record { parts = v } };
}

impl Params {
    ghost use Rattle.std.specs.Prelude.{◌≡◌, ◌≤◌, ◌↔◌, IfSome, IsSome};
    ghost use Rattle.cfdp_types.specs.Params.{AreExpirationLimits, AreFaultTables, AreHeaderLengths, AreTimerLengths, IsParams};

    /// The parameters with these parts; None where a part is out of its range.
    pub fn new(parts: ParamsParts) -> Option<Params>
        ensures ranges { IsSome result ↔ IsParams parts }
        ensures kept { IfSome result (λ params. params ≡ parts) }
    {
        let segments = SEGMENT_OCTETS_LEAST..=SEGMENT_OCTETS_MOST;
        let are_in_range = parts.lengths.are_in_range()
            && segments.contains(&parts.segment_octets)
            && parts.timers.are_in_range()
            && parts.limits.are_in_range()
            && parts.tables.are_of_their_roles();
        if !are_in_range {
            return None;
        }
        Some(Params { parts })
    }

    /// The parts, each in its range.
    pub fn parts(&self) -> ParamsParts
        ensures parts { result ≡ self.now }
        ensures ranges { IsParams result }
    {
        self.parts
    }

    /// This entity's ID.
    pub fn local(&self) -> EntityId
        ensures { result ≡ self.now.local }
    {
        self.parts.local
    }

    /// The lengths of the numbers in the headers that this entity writes.
    pub fn lengths(&self) -> HeaderLengths
        ensures lengths { result ≡ self.now.lengths }
        ensures range { AreHeaderLengths result }
    {
        self.parts.lengths
    }

    /// The most file octets in a File Data PDU that this entity sends.
    pub fn segment_octets(&self) -> u16
        ensures octets { result ≡ self.now.segment_octets }
        ensures least { SEGMENT_OCTETS_LEAST ≤ result }
        ensures most { result ≤ SEGMENT_OCTETS_MOST }
    {
        self.parts.segment_octets
    }

    /// How long each timer runs, in milliseconds.
    pub fn timers(&self) -> TimerLengths
        ensures timers { result ≡ self.now.timers }
        ensures range { AreTimerLengths result }
    {
        self.parts.timers
    }

    /// Which expiration of each timer is a fault, counted from one.
    pub fn limits(&self) -> ExpirationLimits
        ensures limits { result ≡ self.now.limits }
        ensures range { AreExpirationLimits result }
    {
        self.parts.limits
    }

    /// The fault table of each role.
    pub fn tables(&self) -> FaultTables
        ensures tables { result ≡ self.now.tables }
        ensures roles { AreFaultTables result }
    {
        self.parts.tables
    }

    /// The checksum of the files that this entity sends.
    pub fn checksum(&self) -> Checksum
        ensures { result ≡ self.now.checksum }
    {
        self.parts.checksum
    }
}
