ghost use Rattle.std.specs.Prelude.{◌≡◌, ◌≤◌, ◌+◌, [], ◌∷◌, ◌++◌, IfOk, OnOk, OnErr, length, vec_len, vec_capacity};
ghost use Rattle.std.specs.List.{list_any};
ghost use Rattle.indications.specs.Kinds.{kind_of};
ghost use Rattle.indications.specs.Words.{is_end};

use crate::kind::IndicationKind;
use cfdp_types::{Boxed, Condition, Delivery, EntityId, FileStatus, Messages, Octets};
use std::alloc::{AllocError, Global};
use std::marker::Model;

/// How far a transaction is at the moment of a report.
#[derive(Clone, Copy, Debug, PartialEq, Eq)]
pub enum Phase {
    /// None of the other phases.
    Active,
    Suspended,
    /// The file is complete, and the file store has not answered yet.
    Storing,
    /// The end is being agreed on with the other entity.
    Closing,
}

/// What a Metadata-Recv indication reports.
#[derive(Clone, Debug, Drop, PartialEq, Eq)]
pub struct ReceivedMetadata {
    pub source: EntityId,
    /// Octets in the file.
    pub size: u64,
    pub source_name: Octets,
    pub destination_name: Octets,
    pub messages: Messages,
}

/// An indication of a transaction to a local user (CCSDS 727.0-B-5, 3.4).
#[derive(Clone, Debug, Drop, PartialEq, Eq)]
pub enum Indication {
    Transaction,
    EofSent,
    EofRecv,
    TransactionFinished {
        condition: Condition,
        delivery: Delivery,
        status: FileStatus,
    },
    MetadataRecv(Boxed<ReceivedMetadata>),
    FileSegmentRecv {
        offset: u32,
        length: u32,
    },
    Suspended {
        condition: Condition,
    },
    Resumed {
        progress: u32,
    },
    Report {
        phase: Phase,
        progress: u32,
    },
    Fault {
        condition: Condition,
        progress: u32,
    },
    Abandoned {
        condition: Condition,
        progress: u32,
    },
}

impl Indication {
    /// A copy of the indication.
    pub fn copy(&self) -> Result<Indication, AllocError>
        ensures { IfOk result (λ copy. copy ≡ self.now) }
    {
        self.clone()
    }

    /// Whether it indicates the end of the transaction.
    pub fn is_end(&self) -> bool
        ensures { result ≡ is_end self.now }
    {
        matches!(self.kind(), IndicationKind::End(_))
    }

    /// The indication's kind: what it changes in the user's view of the transaction.
    pub fn kind(&self) -> IndicationKind
        ensures { result ≡ kind_of self.now }
    {
        match self {
            Indication::Transaction => IndicationKind::Opening,
            Indication::EofSent => IndicationKind::EofSent,
            Indication::EofRecv => IndicationKind::EofRecv,
            Indication::TransactionFinished { delivery, .. } => IndicationKind::End(*delivery),
            Indication::MetadataRecv(_) => IndicationKind::Metadata,
            Indication::FileSegmentRecv { offset, length } => IndicationKind::Segment {
                offset: *offset,
                length: *length,
            },
            Indication::Suspended { .. } => IndicationKind::Suspension,
            Indication::Resumed { .. } => IndicationKind::Resumption,
            Indication::Report { .. } | Indication::Fault { .. } => IndicationKind::Notice,
            Indication::Abandoned { .. } => IndicationKind::End(Delivery::Incomplete),
        }
    }
}

/// The indications of one step, in order. Contracts see the list of them.
#[derive(Debug, Drop)]
pub struct Indications {
    items: Vec<Indication>,
}

impl Model for Indications {
    ghost use Rattle.std.specs.Prelude.{List};
    ghost use Rattle.indications.specs.declared.indication.Indication.{Indication};

    ghost Value = { List Indication };

    ghost view = { λ s. s.items.items };
}

impl Indications {
    /// An empty list.
    pub fn new(alloc: Global) -> Indications
        ensures { result ≡ [] }
    {
        Indications {
            items: Vec::new(alloc),
        }
    }

    /// The indications, in order.
    pub fn as_slice(&self) -> &[Indication]
        ensures { result.now ≡ self.now }
    {
        self.items.as_slice()
    }

    /// Moves the indications to the end of a vector, which has room for them. Does not allocate.
    pub fn append_to(self, told: &mut Vec<Indication>)
        requires { vec_len told.old + length self ≤ vec_capacity told.old }
        ensures { told.new.items ≡ told.old.items ++ self }
    {
        let Indications { mut items } = self;
        let _done = told.append(&mut items);
    }

    /// Whether one of them indicates the end of the transaction.
    pub fn has_end(&self) -> bool
        ensures { result ≡ list_any is_end self.now }
    {
        self.as_slice().iter().any(|indication| indication.is_end())
    }

    /// A copy of the list.
    pub fn copy(&self) -> Result<Indications, AllocError>
        ensures { IfOk result (λ copy. copy ≡ self.now) }
    {
        let told = self.as_slice();
        let mut items = Vec::with_capacity(*self.items.allocator(), told.len())?;
        for indication in told {
            items.push(indication.copy()?)?;
        }
        Ok(Indications { items })
    }

    /// Adds an indication at the end.
    pub fn push(&mut self, indication: Indication) -> Result<(), AllocError>
        ensures ok { OnOk result (self.new ≡ self.old ++ indication ∷ []) }
        ensures err { OnErr result (self.new ≡ self.old) }
    {
        self.items.push(indication)?;
        Ok(())
    }
}
