//! Results as flat structs of numbers. What has a variable size is left out.
ghost use Rattle.std.specs.Prelude.{◌≡◌, length};
ghost use Rattle.cfdp_session.specs.Kept.{pdus_of};
ghost use Rattle.cfdp_session.specs.Flat.{class_code, delivery_code, deposit_flag, fault_in, kind_code, phase_code, side_code, sized_file, status_code};

use cfdp_types::{Class, Condition, Delivery, Deposit, FileStatus, Image, TimerKind, TimerOp};
use entity_config::Remote;
use entity_parts::EntityRefusal;
use entity_routing::RouteRefusal;
use indications::{Bundle, Indication, Phase, Side};
use lane_table::{Done, Glance, GlancedFile};

/// The result of a step: how much of each kind it left, or why the event was refused.
#[repr(C)]
#[derive(Clone, Copy)]
pub struct FlatDone {
    /// The transaction of the step; 0 and 0 where the event was refused.
    pub source: u64,
    pub seq: u64,
    /// The number of PDUs to send.
    pub pdus: usize,
    /// The number of timer operations.
    pub timers: usize,
    /// The refusal's number, 0 where the event was accepted.
    pub refusal: u32,
    /// The decoding fault's number if the event was refused for one, otherwise 0.
    pub fault: u32,
    /// 1 where a file waits for the file store, otherwise 0.
    pub deposit: u32,
}

/// An operation on one timer of a transaction.
#[repr(C)]
#[derive(Clone, Copy)]
pub struct FlatTimer {
    pub source: u64,
    pub seq: u64,
    pub stamp: u32,
    /// Milliseconds until it expires, 0 where the timer is stopped.
    pub ms: u32,
    pub kind: u32,
    /// 1 where the timer is started, 0 where it is stopped.
    pub arms: u32,
}

/// A received file that was handed to the file store.
#[repr(C)]
#[derive(Clone, Copy)]
pub struct FlatDeposit {
    pub source: u64,
    pub seq: u64,
    pub stamp: u32,
}

/// The lengths of a received file and of its names in octets, or why there is none.
#[repr(C)]
#[derive(Clone, Copy)]
pub struct FlatImage {
    pub source_name: usize,
    pub destination_name: usize,
    pub octets: usize,
    /// The refusal's number, 0 where there is a file.
    pub refusal: u32,
}

/// A transaction.
#[repr(C)]
#[derive(Clone, Copy)]
pub struct FlatKey {
    pub source: u64,
    pub seq: u64,
}

/// A transaction that has begun and not ended, as its lane shows it.
#[repr(C)]
#[derive(Clone, Copy)]
pub struct FlatTransaction {
    pub source: u64,
    pub seq: u64,
    /// The entity at the other end.
    pub peer: u64,
    /// The octets in the file, 0 where they aren't known.
    pub size: u64,
    /// 1 where this entity sends the file, 0 where it receives it.
    pub sends: u32,
    pub class: u32,
    pub phase: u32,
    pub progress: u32,
    /// 1 where the size is known: a receiver knows it once the Metadata has come.
    pub sized: u32,
    /// The number of events that it has accepted.
    pub entries: u32,
}

/// A remote entity of the configuration.
#[repr(C)]
#[derive(Clone, Copy)]
pub struct FlatRemote {
    pub id: u64,
    /// The number of the user that gets its files; the greatest number if no user does.
    pub user: usize,
}

/// A bundle of indications.
#[repr(C)]
#[derive(Clone, Copy)]
pub struct FlatBundle {
    pub source: u64,
    pub seq: u64,
    pub user: usize,
    pub lane: usize,
    /// The number of indications.
    pub indications: usize,
}

/// An indication. Each kind has its own fields; the others are 0.
#[repr(C)]
#[derive(Clone, Copy)]
pub struct FlatIndication {
    pub kind: u32,
    pub condition: u32,
    pub delivery: u32,
    pub status: u32,
    pub phase: u32,
    pub offset: u32,
    pub length: u32,
    pub progress: u32,
    pub size: u64,
    pub source: u64,
    /// The number of its texts: both file names, then the messages.
    pub parts: usize,
}

impl FlatIndication {
    ghost use Rattle.std.specs.Prelude.{◌≡◌};
    ghost use Rattle.cfdp_session.specs.Flat.{bare, flat_indication};

    // An indication of this kind whose other numbers are all 0.
    fn bare(kind: u32) -> FlatIndication
        ensures { result ≡ bare kind }
    {
        FlatIndication {
            kind,
            condition: 0,
            delivery: 0,
            status: 0,
            phase: 0,
            offset: 0,
            length: 0,
            progress: 0,
            size: 0,
            source: 0,
            parts: 0,
        }
    }

    // An indication with a condition and the transaction's progress.
    fn at(kind: u32, condition: Condition, progress: u32) -> FlatIndication
        ensures { result ≡ record (bare kind) { condition = condition; progress = progress } }
    {
        FlatIndication {
            condition: u32::from(condition.code()),
            progress,
            ..FlatIndication::bare(kind)
        }
    }

    /// The numbers of an indication.
    pub fn of(indication: &Indication) -> FlatIndication
        ensures { result ≡ flat_indication indication.now }
    {
        match indication {
            Indication::Transaction => FlatIndication::bare(1),
            Indication::EofSent => FlatIndication::bare(2),
            Indication::EofRecv => FlatIndication::bare(3),
            Indication::TransactionFinished {
                condition,
                delivery,
                status,
            } => FlatIndication {
                condition: u32::from(condition.code()),
                delivery: delivery_code(*delivery),
                status: status_code(*status),
                ..FlatIndication::bare(4)
            },
            Indication::MetadataRecv(metadata) => {
                let metadata = metadata.get();
                FlatIndication {
                    source: metadata.source.0,
                    size: metadata.size,
                    parts: metadata.messages.as_slice().len() + 2,
                    ..FlatIndication::bare(5)
                }
            }
            Indication::FileSegmentRecv { offset, length } => FlatIndication {
                offset: *offset,
                length: *length,
                ..FlatIndication::bare(6)
            },
            Indication::Suspended { condition } => FlatIndication::at(7, *condition, 0),
            Indication::Resumed { progress } => {
                FlatIndication::at(8, Condition::NO_ERROR, *progress)
            }
            Indication::Report { phase, progress } => FlatIndication {
                phase: phase_code(*phase),
                progress: *progress,
                ..FlatIndication::bare(9)
            },
            Indication::Fault {
                condition,
                progress,
            } => FlatIndication::at(10, *condition, *progress),
            Indication::Abandoned {
                condition,
                progress,
            } => FlatIndication::at(11, *condition, *progress),
        }
    }
}

impl FlatDone {
    ghost use Rattle.std.specs.Prelude.{◌≡◌, length};
    ghost use Rattle.cfdp_session.specs.Kept.{Last, pdus_of};
    ghost use Rattle.cfdp_session.specs.Flat.{flat_done};

    /// All numbers before the first event: each is 0.
    pub const NONE: FlatDone = FlatDone {
        source: 0,
        seq: 0,
        pdus: 0,
        timers: 0,
        refusal: 0,
        fault: 0,
        deposit: 0,
    };

    // The counts of a step.
    fn of_step(done: &Done) -> FlatDone
        ensures { result ≡ flat_done (Some (Ok done.now)) }
    {
        FlatDone {
            source: done.key.source.0,
            seq: done.key.seq,
            pdus: done.pdus.as_slice().len(),
            timers: done.timers.as_slice().len(),
            refusal: 0,
            fault: 0,
            deposit: deposit_flag(&done.deposit),
        }
    }

    // The numbers of a refusal.
    fn of_refusal(why: &EntityRefusal) -> FlatDone
        ensures { result ≡ flat_done (Some (Err why.now)) }
    {
        FlatDone {
            pdus: echoes(why),
            refusal: u32::from(why.number()),
            fault: fault_in(why),
            ..FlatDone::NONE
        }
    }

    /// The counts and numbers of a result.
    pub fn of(last: &Option<Result<Done, EntityRefusal>>) -> FlatDone
        ensures { result ≡ flat_done last.now }
    {
        match last {
            None => FlatDone::NONE,
            Some(Ok(done)) => FlatDone::of_step(done),
            Some(Err(why)) => FlatDone::of_refusal(why),
        }
    }
}

// The number of echoes of a refused event, 0 or 1.
fn echoes(why: &EntityRefusal) -> usize
    ensures { result ≡ length (pdus_of (Some (Err why.now))) }
{
    match why {
        EntityRefusal::Lane(refused) => match refused.echo {
            None => 0,
            Some(_) => 1,
        },
        _ => 0,
    }
}

// The number of the decoding fault, or 0.
fn fault_in(why: &EntityRefusal) -> u32
    ensures { result ≡ fault_in why.now }
{
    match why {
        EntityRefusal::Route(RouteRefusal::DecodeFault(fault)) => u32::from(fault.number()),
        _ => 0,
    }
}

// 1 where there is a deposit, otherwise 0.
fn deposit_flag(deposit: &Option<Deposit>) -> u32
    ensures { result ≡ deposit_flag deposit.now }
{
    match deposit {
        None => 0,
        Some(_) => 1,
    }
}

impl FlatTimer {
    ghost use Rattle.std.specs.Prelude.{◌≡◌};
    ghost use Rattle.cfdp_session.specs.Flat.{flat_timer};

    /// The numbers of a timer operation.
    pub fn of(op: &TimerOp) -> FlatTimer
        ensures { result ≡ flat_timer op.now }
    {
        match op {
            TimerOp::Arm {
                key,
                kind,
                stamp,
                ms,
            } => FlatTimer {
                source: key.source.0,
                seq: key.seq,
                stamp: *stamp,
                ms: *ms,
                kind: kind_code(*kind),
                arms: 1,
            },
            TimerOp::Disarm { key, kind, stamp } => FlatTimer {
                source: key.source.0,
                seq: key.seq,
                stamp: *stamp,
                ms: 0,
                kind: kind_code(*kind),
                arms: 0,
            },
        }
    }
}

impl FlatRemote {
    ghost use Rattle.std.specs.Prelude.{◌≡◌};
    ghost use Rattle.cfdp_session.specs.Flat.{flat_remote};

    /// The numbers of a remote entity.
    pub fn of(remote: Remote) -> FlatRemote
        ensures { result ≡ flat_remote remote }
    {
        FlatRemote {
            id: remote.id.0,
            user: match remote.user {
                Some(user) => user,
                None => usize::MAX,
            },
        }
    }
}

impl FlatTransaction {
    ghost use Rattle.std.specs.Prelude.{◌≡◌};
    ghost use Rattle.cfdp_session.specs.Flat.{flat_transaction};

    /// The numbers of a transaction.
    pub fn of(glance: &Glance) -> FlatTransaction
        ensures { result ≡ flat_transaction glance.now }
    {
        let (size, sized) = size_of(&glance.file);
        FlatTransaction {
            source: glance.key.source.0,
            seq: glance.key.seq,
            peer: glance.peer.0,
            size,
            sends: side_code(glance.end),
            class: class_code(glance.class),
            phase: phase_code(glance.phase),
            progress: glance.progress,
            sized,
            entries: glance.entries,
        }
    }
}

// The octets of a file, and 1; 0 and 0 where they aren't known.
fn size_of(file: &Option<GlancedFile>) -> (u64, u32)
    ensures { result ≡ sized_file file.now }
{
    match file {
        Some(file) => (file.size, 1),
        None => (0, 0),
    }
}

// 1 for a sender, 0 for a receiver.
fn side_code(side: Side) -> u32
    ensures { result ≡ side_code side }
{
    match side {
        Side::Sender => 1,
        Side::Receiver => 0,
    }
}

// The number of a class.
fn class_code(class: Class) -> u32
    ensures { result ≡ class_code class }
{
    match class {
        Class::One => 1,
        Class::Two => 2,
    }
}

impl FlatDeposit {
    ghost use Rattle.std.specs.Prelude.{◌≡◌};
    ghost use Rattle.cfdp_session.specs.Flat.{flat_deposit};

    /// The numbers of a deposit.
    pub fn of(deposit: Deposit) -> FlatDeposit
        ensures { result ≡ flat_deposit deposit }
    {
        FlatDeposit {
            source: deposit.key.source.0,
            seq: deposit.key.seq,
            stamp: deposit.stamp,
        }
    }
}

impl FlatImage {
    ghost use Rattle.std.specs.Prelude.{◌≡◌};
    ghost use Rattle.cfdp_session.specs.Flat.{flat_image, flat_missing};

    /// The lengths of a file and of its names.
    pub fn of(image: &Image) -> FlatImage
        ensures { result ≡ flat_image image.now }
    {
        FlatImage {
            source_name: image.source_name.as_slice().len(),
            destination_name: image.destination_name.as_slice().len(),
            octets: image.octets.as_slice().len(),
            refusal: 0,
        }
    }

    /// The refusal's number where there is no file; each length is 0.
    pub fn missing(why: &EntityRefusal) -> FlatImage
        ensures { result ≡ flat_missing why.now }
    {
        FlatImage {
            source_name: 0,
            destination_name: 0,
            octets: 0,
            refusal: u32::from(why.number()),
        }
    }
}

impl FlatBundle {
    ghost use Rattle.std.specs.Prelude.{◌≡◌};
    ghost use Rattle.cfdp_session.specs.Flat.{flat_bundle};

    /// The numbers of a bundle.
    pub fn of(bundle: &Bundle) -> FlatBundle
        ensures { result ≡ flat_bundle bundle.now }
    {
        FlatBundle {
            source: bundle.key.source.0,
            seq: bundle.key.seq,
            user: bundle.user,
            lane: bundle.lane,
            indications: bundle.inds.as_slice().len(),
        }
    }
}

// The number of a timer's kind.
fn kind_code(kind: TimerKind) -> u32
    ensures { result ≡ kind_code kind }
{
    match kind {
        TimerKind::Ack => 1,
        TimerKind::Nak => 2,
        TimerKind::Check => 3,
        TimerKind::Inactivity => 4,
    }
}

// The number of a delivery code, as in a Finished PDU.
fn delivery_code(delivery: Delivery) -> u32
    ensures { result ≡ delivery_code delivery }
{
    match delivery {
        Delivery::Complete => 0,
        Delivery::Incomplete => 1,
    }
}

// The number of a file status, as in a Finished PDU.
fn status_code(status: FileStatus) -> u32
    ensures { result ≡ status_code status }
{
    match status {
        FileStatus::Discarded => 0,
        FileStatus::Rejected => 1,
        FileStatus::Retained => 2,
        FileStatus::Unreported => 3,
    }
}

// The number of a transaction's phase.
fn phase_code(phase: Phase) -> u32
    ensures { result ≡ phase_code phase }
{
    match phase {
        Phase::Active => 1,
        Phase::Suspended => 2,
        Phase::Storing => 3,
        Phase::Closing => 4,
    }
}
