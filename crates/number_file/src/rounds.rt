//! Which numbers a file covers.
ghost use Rattle.std.specs.Prelude.{◌≡◌, ◌≤◌, ◌<◌, IfSome, None};
ghost use Rattle.number_file.specs.Rounds.{begun, cover_of, given, last_number, number_at, written};

/// The greatest number that a file may hold.
pub const LAST_NUMBER: u64 = 9_223_372_036_854_775_807;

/// What must be covered before the next Put.
#[derive(Clone, Copy, Debug, PartialEq, Eq)]
pub enum Cover {
    /// Nothing more: the Put's round is covered.
    Covered,
    /// All rounds below this one: the file must be written.
    Write(u64),
    /// Nothing can be covered: no round is left.
    Over,
}

/// The rounds that a file covers. Each Put of a sending lane takes the lane's next round; all lanes begin at the same
/// round.
#[derive(Clone, Copy, Debug, PartialEq, Eq)]
pub struct Rounds {
    /// No lane's next round is above this one.
    pub next: u64,
    /// All rounds below this one are covered.
    pub covered: u64,
    /// How many numbers a round has, at least one.
    pub width: u64,
    /// How many rounds are covered at once, at least one.
    pub block: u64,
}

impl Rounds {
    /// The rounds of a run, which begins at `first`, or at the first round that has no number below the one in the
    /// file, if that is higher.
    pub fn begin(first: u64, number: u64, width: u64, block: u64) -> Rounds
        ensures { result ≡ begun first number width block }
    {
        let next = first.max(number.div_ceil(width.max(1)));
        Rounds {
            next,
            covered: next,
            width,
            block,
        }
    }

    /// The number in a file that covers all rounds below `round`; None if it is greater than a file may hold.
    pub fn number_at(&self, round: u64) -> Option<u64>
        ensures number { IfSome result (λ number. number ≡ number_at round self.now) }
        ensures held { IfSome result (λ number. number ≤ last_number) }
        ensures none { result ≡ None → last_number < number_at round self.now }
    {
        match self.width.max(1).checked_mul(round) {
            Some(number) if number <= LAST_NUMBER => Some(number),
            _ => None,
        }
    }

    /// What must be covered before the next Put.
    pub fn cover(&self) -> Cover
        ensures { result ≡ cover_of self.now }
    {
        if self.next < self.covered {
            return Cover::Covered;
        }
        match self.next.checked_add(self.block.max(1)) {
            Some(round) if round <= LAST_NUMBER => {
                if self.number_at(round).is_some() {
                    Cover::Write(round)
                } else {
                    Cover::Over
                }
            }
            _ => Cover::Over,
        }
    }

    /// Notes that the file now covers all rounds below `round`.
    pub fn note_written(&mut self, round: u64)
        ensures { self.new ≡ written round self.old }
    {
        self.covered = round;
    }

    /// Notes that a lane gave this round to a Put.
    pub fn note_given(&mut self, round: u64)
        ensures { self.new ≡ given round self.old }
    {
        self.next = self.next.max(round.saturating_add(1));
    }
}
