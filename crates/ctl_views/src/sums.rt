//! Which transactions of a log are listed, and the sums over them.
ghost use Rattle.std.specs.Prelude.{◌≡◌};
ghost use Rattle.ctl_views.specs.History.{is_listed, is_lost, is_remote, is_since, lost_of, octets_of, with_end};

use crate::ends::End;

/// Sums over transactions that ended. None grows above 64 bits.
#[derive(Clone, Copy)]
pub struct Sum {
    /// How many ended.
    pub ended: u64,
    /// How many of them failed.
    pub lost: u64,
    /// The octets of the files that didn't fail.
    pub octets: u64,
}

/// The sums over nothing.
pub const NO_SUM: Sum = Sum {
    ended: 0,
    lost: 0,
    octets: 0,
};

impl Sum {
    /// Counts a transaction that ended in this way, with a file of this many octets.
    pub fn add(&mut self, end: End, octets: u64)
        ensures { self.new ≡ with_end end octets self.old }
    {
        self.ended = self.ended.saturating_add(1);
        self.lost = self.lost.saturating_add(lost_of(end));
        self.octets = self.octets.saturating_add(octets_of(end, octets));
    }
}

// One if a file is lost.
fn lost_of(end: End) -> u64
    ensures { result ≡ lost_of end }
{
    match end {
        End::Kept | End::Unreported => 0,
        End::Lost => 1,
    }
}

// The octets that count.
fn octets_of(end: End, octets: u64) -> u64
    ensures { result ≡ octets_of end octets }
{
    match end {
        End::Kept | End::Unreported => octets,
        End::Lost => 0,
    }
}

/// Which transactions are listed.
#[derive(Clone, Copy)]
pub struct Wanted {
    /// Those that ended at this moment or later, in milliseconds as `moment_begun` counts them.
    pub since: Option<u64>,
    /// Those with this entity at the other end.
    pub remote: Option<u64>,
    /// Those that failed.
    pub only_failed: bool,
}

/// Whether a transaction is listed, by its moment, the entity at the other end, and its end.
pub fn is_listed(wanted: Wanted, at: Option<u64>, peer: Option<u64>, end: End) -> bool
    ensures { result ≡ is_listed wanted.since wanted.remote wanted.only_failed at peer end }
{
    is_since(wanted.since, at)
        && (is_remote(wanted.remote, peer) && (!wanted.only_failed || is_lost(end)))
}

fn is_since(since: Option<u64>, at: Option<u64>) -> bool
    ensures { result ≡ is_since since at }
{
    match (since, at) {
        (None, _) => true,
        (Some(_), None) => false,
        (Some(since), Some(at)) => since <= at,
    }
}

/// Whether an entity is the one that is asked for; true if none is asked for.
pub fn is_remote(remote: Option<u64>, peer: Option<u64>) -> bool
    ensures { result ≡ is_remote remote peer }
{
    match (remote, peer) {
        (None, _) => true,
        (Some(_), None) => false,
        (Some(remote), Some(peer)) => remote == peer,
    }
}

/// Whether a file is neither kept nor sent completely without a report.
pub fn is_lost(end: End) -> bool
    ensures { result ≡ is_lost end }
{
    match end {
        End::Kept | End::Unreported => false,
        End::Lost => true,
    }
}
