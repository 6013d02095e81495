ghost use Rattle.std.specs.Prelude.{◌≡◌};
ghost use Rattle.program_parking.specs.Lanes.{counted};

/// How many transactions a line of datagrams has so far, and the number of the last one.
#[derive(Clone, Copy, Debug, Default, PartialEq, Eq)]
pub struct Counted {
    pub last: Option<u64>,
    pub count: u64,
}

impl Counted {
    /// The same with one more datagram.
    pub(crate) fn with(self, number: u64) -> Counted
        ensures { result ≡ counted self number }
    {
        if self.last == Some(number) {
            return self;
        }
        Counted {
            last: Some(number),
            count: self.count.saturating_add(1),
        }
    }
}
