//! The exit status, by the indications of the user.
ghost use Rattle.std.specs.Prelude.{◌≡◌};
ghost use Rattle.cfdp_send.specs.Ended.{end_status, status_in, status_of};

use cfdp_types::{Condition, Delivery, TxnKey};
use indications::{Bundle, Indication};

/// The exit status if a bundle ends the transaction: 0 if the receiver has the whole file, and 2 otherwise.
pub(crate) fn status_of(bundle: &Bundle, key: TxnKey) -> Option<u8>
    ensures { result ≡ status_of bundle.now key }
{
    if bundle.key == key {
        status_in(bundle.inds.as_slice())
    } else {
        None
    }
}

// The exit status by the first of these indications that ends a transaction.
fn status_in(told: &[Indication]) -> Option<u8>
    ensures { result ≡ status_in told.now }
{
    match told {
        [] => None,
        [first, later @ ..] => match end_status(first) {
            Some(status) => Some(status),
            None => status_in(later),
        },
    }
}

// The exit status by one indication, if it ends a transaction.
fn end_status(told: &Indication) -> Option<u8>
    ensures { result ≡ end_status told.now }
{
    match told {
        Indication::TransactionFinished {
            condition,
            delivery,
            ..
        } => {
            if *condition == Condition::NO_ERROR && *delivery == Delivery::Complete {
                Some(0)
            } else {
                Some(2)
            }
        }
        Indication::Abandoned { .. } => Some(2),
        _ => None,
    }
}
