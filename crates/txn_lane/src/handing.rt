//! Handing a step's indications to the user's queue.
ghost use Rattle.std.specs.Prelude.{◌≡◌, IfOk, OnOk, IfErr, IsSome};
ghost use Rattle.txn_events.specs.declared.refusal.Refusal.TheVariants as refusal;
ghost use Rattle.txn_lane.specs.Handing.{bundle_for, MayHandOver, IsHandedOver};

use cfdp_types::TxnKey;
use indications::{Bundle, Indications, Outlet};
use std::alloc::{AllocError, Global};
use txn_events::Refusal;

/// The number of a lane and of its user, and the allocator for its steps.
#[derive(Clone, Copy)]
pub(crate) struct LaneAddress {
    pub(crate) alloc: Global,
    pub(crate) user: usize,
    pub(crate) lane: usize,
}

/// The bundle of a step's indications, if there are any.
pub(crate) fn bundle_for(
    user: usize,
    lane: usize,
    key: TxnKey,
    inds: &Indications,
) -> Result<Option<Bundle>, AllocError>
    ensures { IfOk result (λ bundle. bundle ≡ bundle_for user lane key inds.now) }
{
    if inds.as_slice().is_empty() {
        return Ok(None);
    }
    Ok(Some(Bundle {
        user,
        lane,
        key,
        inds: inds.copy()?,
    }))
}

/// Offers the bundle, if there is one, to the outlet. `QueueFull` if the queue is full.
pub(crate) fn hand_over<O: Outlet>(outlet: &mut O, bundle: Option<Bundle>) -> Result<(), Refusal>
    requires { MayHandOver (O.user outlet.old) (O.lane outlet.old) (O.stands outlet.old) bundle }
    ensures taken { OnOk result (IsHandedOver O.takes outlet.old outlet.new bundle) }
    ensures full { IfErr result (λ why. (why ≡ refusal.QueueFull) × IsSome bundle × O.returns outlet.old outlet.new) }
{
    match bundle {
        None => Ok(()),
        Some(bundle) => match outlet.offer(bundle) {
            Ok(()) => Ok(()),
            Err(_) => Err(Refusal::QueueFull),
        },
    }
}
