//! What a user takes, lane by lane.
ghost use Rattle.std.specs.Prelude.{◌≡◌};

use crate::said::push_line;
use indications::{Bundle, Indication, IndicationKind};
use std::alloc::AllocError;
use std::sync::Wait;
use user_queues::UserPort;

/// The bundles of a user's four lanes, three digits for each: two for the number of its transaction, and one for its
/// last indication.
#[derive(Clone, Copy)]
pub(crate) struct Heard {
    user: usize,
    lanes: [u64; 4],
    counts: [u64; 4],
    others: u64,
}

impl Heard {
    pub(crate) fn new(user: usize) -> Heard {
        Heard {
            user,
            lanes: [0; 4],
            counts: [0; 4],
            others: 0,
        }
    }

    fn hear(&mut self, bundle: &Bundle) {
        let digit = match bundle.inds.as_slice().last() {
            Some(told) => digit_of(told),
            None => 9,
        };
        let (lanes, counts) = (&mut self.lanes, &mut self.counts);
        match (lanes.get_mut(bundle.lane), counts.get_mut(bundle.lane)) {
            (Some(digits), Some(count)) if bundle.user == self.user => {
                *count = count.saturating_add(1);
                *digits = digits
                    .wrapping_mul(1_000)
                    .wrapping_add(bundle.key.seq.wrapping_mul(10))
                    .wrapping_add(digit);
            }
            _ => self.others = self.others.saturating_add(1),
        }
    }

    /// Takes a bundle, if there is one.
    pub(crate) fn take<R: Wait>(&mut self, rt: &R, port: &mut UserPort) -> bool
        ensures queue { port.new.queue ≡ port.old.queue }
        ensures user { port.new.knows.user ≡ port.old.knows.user }
    {
        match &port.take(rt) {
            Some(bundle) => {
                self.hear(bundle);
                true
            }
            None => false,
        }
    }

    /// Adds a line with the digits of each lane's bundles, and how many bundles of other lanes or users there were.
    pub(crate) fn push(&self, text: &mut String) -> Result<(), AllocError> {
        push_line(text, "lanes", &self.lanes)?;
        push_line(text, "others", &[self.others])
    }

    /// Adds these lines with the digits of each lane's last bundle alone, after the number of the lane's bundles.
    pub(crate) fn push_ends(&self, text: &mut String) -> Result<(), AllocError> {
        let ([a, b, c, d], [k, l, m, n]) = (self.lanes, self.counts);
        let ends = [end_of(k, a), end_of(l, b), end_of(m, c), end_of(n, d)];
        push_line(text, "ends", &ends)?;
        push_line(text, "others", &[self.others])
    }
}

// How many bundles there were, and the digits of the last.
fn end_of(count: u64, digits: u64) -> u64 {
    count.wrapping_mul(1_000).wrapping_add(digits % 1_000)
}

fn digit_of(told: &Indication) -> u64 {
    match told.kind() {
        IndicationKind::Metadata => 1,
        IndicationKind::EofRecv => 2,
        IndicationKind::End(_) => 3,
        IndicationKind::Opening => 4,
        IndicationKind::Segment { .. } => 5,
        _ => 9,
    }
}
