//! The timers of one end of a transaction: which of them run, and how often each has expired.
ghost use Rattle.std.specs.Prelude.{◌≡◌, ◌≤◌, ◌+◌, ◌||◌, ◌&&◌, ◌++◌, IfOk, OnOk, if◌then◌else◌};
ghost use Rattle.cfdp_types.specs.declared.limits.TheConstants.{JOURNAL_ENTRIES};
ghost use Rattle.cfdp_types.specs.Steps.{operation, operations};
ghost use Rattle.cfdp_types.specs.Params.{timer_length};
ghost use Rattle.txn_events.specs.Timers.{effect_of_change, effects, stamp_of, stamp_by};

use crate::event::What;
use crate::events::is_expiration;
use crate::lists::TimerOps;
use crate::telling::{has_fault, has_resumed};
use cfdp_types::{Params, TimerKind, TimerLengths, TimerOp, TxnKey};
use indications::Indication;
use std::alloc::{AllocError, Global};

/// What a step does to one timer.
#[derive(Clone, Copy)]
pub enum TimerChange {
    Arms,
    Keeps,
    Stops,
}

/// What a step does to each timer.
#[derive(Clone, Copy)]
pub struct TimerChanges {
    pub ack: TimerChange,
    pub nak: TimerChange,
    pub check: TimerChange,
    pub inactivity: TimerChange,
}

/// For each running timer its stamp: the number in the journal of the event that armed it.
#[derive(Clone, Copy)]
pub struct Stamps {
    pub ack: Option<u32>,
    pub nak: Option<u32>,
    pub check: Option<u32>,
    pub inactivity: Option<u32>,
}

/// For each timer its expirations since the count last began.
#[derive(Clone, Copy)]
pub struct Tries {
    pub ack: u32,
    pub nak: u32,
    pub check: u32,
    pub inactivity: u32,
}

impl Stamps {
    ghost use Rattle.std.specs.Prelude.{◌≡◌, ℕ};
    ghost use Rattle.cfdp_types.specs.declared.names.TimerKind.{TimerKind};
    ghost use Rattle.txn_events.specs.Timers.{stamp_of, stamp_by, effects};

    /// No timer runs.
    pub const NONE: Stamps = Stamps {
        ack: None,
        nak: None,
        check: None,
        inactivity: None,
    };

    /// The stamp of the timer of this kind.
    pub fn of(&self, kind: TimerKind) -> Option<u32>
        ensures { result ≡ stamp_of self.now kind }
    {
        match kind {
            TimerKind::Ack => self.ack,
            TimerKind::Nak => self.nak,
            TimerKind::Check => self.check,
            TimerKind::Inactivity => self.inactivity,
        }
    }

    /// The stamps after a step, which has this stamp itself and makes these changes.
    pub fn after(self, changes: TimerChanges, stamp: u32) -> Stamps
        ensures { (kind : TimerKind)
            → stamp_of result kind ≡ stamp_by stamp (effects changes kind) (stamp_of self kind) }
    {
        Stamps {
            ack: stamp_after(self.ack, changes.ack, stamp),
            nak: stamp_after(self.nak, changes.nak, stamp),
            check: stamp_after(self.check, changes.check, stamp),
            inactivity: stamp_after(self.inactivity, changes.inactivity, stamp),
        }
    }
}

/// Which counts a step begins again for reasons specific to its end.
#[derive(Clone, Copy)]
pub struct CountResets {
    pub ack: bool,
    pub nak: bool,
}

impl Tries {
    ghost use Rattle.std.specs.Prelude.{◌≡◌};
    ghost use Rattle.cfdp_types.specs.declared.names.TimerKind.{TimerKind};
    ghost use Rattle.cfdp_types.specs.declared.limits.TheConstants.{JOURNAL_ENTRIES};
    ghost use Rattle.txn_events.specs.Timers.{tries_of, tries_by, AreUpTo};

    /// No timer has expired.
    pub const NONE: Tries = Tries {
        ack: 0,
        nak: 0,
        check: 0,
        inactivity: 0,
    };

    /// The counts after an event with these indications. All begin again where the transaction is resumed. A timer's
    /// count begins again where its fault is ignored, or where `resets` says so. Otherwise an expiration adds one.
    pub fn after(self, event: &What, inds: &[Indication], resets: CountResets) -> Tries
        requires { AreUpTo JOURNAL_ENTRIES self }
        ensures { (kind : TimerKind)
            → tries_of result kind ≡ tries_by event.now inds.now resets kind (tries_of self kind) }
    {
        let resumed = has_resumed(inds);
        let faulted = has_fault(inds);
        let ack = is_expiration(TimerKind::Ack, event);
        let nak = is_expiration(TimerKind::Nak, event);
        let check = is_expiration(TimerKind::Check, event);
        let inactivity = is_expiration(TimerKind::Inactivity, event);
        Tries {
            ack: count(
                self.ack,
                ack,
                begins_again(resumed, ack, faulted, resets.ack),
            ),
            nak: count(
                self.nak,
                nak,
                begins_again(resumed, nak, faulted, resets.nak),
            ),
            check: count(
                self.check,
                check,
                begins_again(resumed, check, faulted, false),
            ),
            inactivity: count(
                self.inactivity,
                inactivity,
                begins_again(resumed, inactivity, faulted, false),
            ),
        }
    }
}

// The count with one more expiration, or 0 where it begins again.
fn count(before: u32, expired: bool, again: bool) -> u32
    requires { before ≤ JOURNAL_ENTRIES }
    ensures { result ≡ (if again then 0 else if expired then before + 1 else before) }
{
    if again {
        0
    } else if expired {
        before + 1
    } else {
        before
    }
}

// Whether the count of a timer begins again.
fn begins_again(resumed: bool, expired: bool, faulted: bool, resets: bool) -> bool
    ensures { result ≡ (resumed || (expired && faulted) || resets) }
{
    resumed || (expired && faulted) || resets
}

// The stamp of a timer after a change by a step with this stamp.
fn stamp_after(before: Option<u32>, change: TimerChange, stamp: u32) -> Option<u32>
    ensures { result ≡ stamp_by stamp (effect_of_change change) before }
{
    match change {
        TimerChange::Arms => Some(stamp),
        TimerChange::Keeps => before,
        TimerChange::Stops => None,
    }
}

/// The transaction whose timers a step changes, how long they run, and the step's stamp: its number in the journal.
#[derive(Clone, Copy)]
pub struct TimerContext {
    pub key: TxnKey,
    pub lengths: TimerLengths,
    pub stamp: u32,
}

impl TimerContext {
    ghost use Rattle.std.specs.Prelude.{◌≡◌};

    /// The context of a step with this stamp, in a transaction with these parameters.
    pub fn new(key: TxnKey, params: &Params, stamp: u32) -> TimerContext
        ensures { result ≡ record { key = key; lengths = params.now.timers; stamp = stamp } }
    {
        TimerContext {
            key,
            lengths: params.timers(),
            stamp,
        }
    }
}

// Appends the operation for one timer's change, if the change needs one.
fn put_operation(
    ops: &mut TimerOps,
    context: &TimerContext,
    kind: TimerKind,
    change: TimerChange,
    before: Option<u32>,
) -> Result<(), AllocError>
    ensures { OnOk result (ops.new ≡ ops.old
        ++ operation context.now.key (timer_length context.now.lengths) context.now.stamp kind (effect_of_change change) before) }
{
    match change {
        TimerChange::Arms => ops.push(TimerOp::Arm {
            key: context.key,
            kind,
            stamp: context.stamp,
            ms: context.lengths.of(kind),
        }),
        TimerChange::Keeps => Ok(()),
        TimerChange::Stops => match before {
            None => Ok(()),
            Some(_) => ops.push(TimerOp::Disarm {
                key: context.key,
                kind,
                stamp: context.stamp,
            }),
        },
    }
}

/// The timer operations for a step's changes.
pub fn operations(
    alloc: Global,
    context: &TimerContext,
    changes: TimerChanges,
    before: &Stamps,
) -> Result<TimerOps, AllocError>
    ensures { IfOk result (λ ops. ops
        ≡ operations context.now.key (timer_length context.now.lengths) context.now.stamp (effects changes) (stamp_of before.now)) }
{
    let mut ops = TimerOps::new(alloc);
    put_operation(&mut ops, context, TimerKind::Ack, changes.ack, before.ack)?;
    put_operation(&mut ops, context, TimerKind::Nak, changes.nak, before.nak)?;
    put_operation(
        &mut ops,
        context,
        TimerKind::Check,
        changes.check,
        before.check,
    )?;
    put_operation(
        &mut ops,
        context,
        TimerKind::Inactivity,
        changes.inactivity,
        before.inactivity,
    )?;
    Ok(ops)
}
