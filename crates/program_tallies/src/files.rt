ghost use Rattle.std.specs.Prelude.{◌≡◌, ◌-◌};
ghost use Rattle.program_tallies.specs.Files.{with_file};

/// Files that came whole, and the sum of their sizes. Neither grows above 64 bits.
#[derive(Clone, Copy, Debug, PartialEq, Eq, Default)]
pub struct Files {
    pub files: u64,
    pub octets: u64,
}

impl Files {
    /// Counts a file of so many octets.
    pub fn add(&mut self, octets: u64)
        ensures { self.new ≡ with_file octets self.old }
    {
        self.files = self.files.saturating_add(1);
        self.octets = self.octets.saturating_add(octets);
    }
}

/// How many octets a file of this size lacks, of which so many arrived, each counted once.
pub fn missing_of(size: u64, arrived: u64) -> u64
    ensures { result ≡ size - arrived }
{
    size.saturating_sub(arrived)
}
