use program_arrivals::{Arrivals, Forwarder, Sources, Turns, forwarders_of};
use program_common::Common;
use program_desk::Urgency;
use program_lot::Lot;
use program_tallies::Tallies;
use shared_lanes::Names;
use std::alloc::AllocError;

/// The datagrams that arrive at a program's socket, with a forwarder for each worker. All memory is reserved when it is
/// opened.
#[derive(Drop)]
pub struct WayIn<'a, R> {
    pub(crate) arrivals: Arrivals<'a>,
    pub(crate) forwarders: Vec<Forwarder<'a, R>>,
}

impl<'a, R: Copy> WayIn<'a, R> {
    /// A forwarder for each worker that `tallies` counts, for datagrams from these sources. `others` says how soon the
    /// main thread has to handle a step for which no client waits. Datagrams of one lane keep their order by `turns`, and
    /// are parked in the lot, if there is one.
    pub fn new<N: Names>(
        common: &Common<'a, N, R>,
        (tallies, turns): (&'a Tallies, &'a Turns),
        others: Urgency,
        sources: Sources,
        lot: Option<&'a Lot>,
    ) -> Result<WayIn<'a, R>, AllocError> {
        Ok(WayIn {
            arrivals: Arrivals::new(common.alloc, common.socket, common.desk, sources, turns),
            forwarders: forwarders_of(common, tallies, others, lot)?,
        })
    }
}
