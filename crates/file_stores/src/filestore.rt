ghost use Rattle.std.specs.Prelude.{◌≡◌, ◌+◌, ◌<◌, ◌≤◌, ℕ, List, Result, is_ok, if◌then◌else◌};

use thiserror::Error;

/// Why a store does not keep a file.
#[derive(Clone, Copy, Debug, PartialEq, Eq, Error)]
pub enum StoreFault {
    /// The name is not valid in this store.
    #[error("the store can't have a file of that name")]
    BadName,
    /// The file couldn't be kept, for another reason; running out of memory is one.
    #[error("the file could not be kept")]
    Failed,
}

impl StoreFault {
    ghost use Rattle.std.specs.Prelude.{◌≡◌};
    ghost use Rattle.file_stores.specs.Faults.{fault_number};

    /// The fault's number.
    pub fn number(self) -> u8
        ensures { result ≡ fault_number self }
    {
        match self {
            StoreFault::BadName => 1,
            StoreFault::Failed => 2,
        }
    }
}

/// A file store for received files. It counts the deposits that were tried and those that failed.
pub trait Filestore {
    ghost use Rattle.file_stores.specs.declared.filestore.StoreFault.{StoreFault};

    ghost tried: { Self → ℕ };

    ghost failed: { Self → ℕ };

    // The effect of a deposit of a name and octets on the store.
    ghost deposits: { Self → List ℕ → List ℕ → Result (Unit {0}) StoreFault → Self → Type 0 };

    /// Keeps a file under a name. Each store says what happens to an existing file with that name.
    fn deposit(&mut self, name: &[u8], octets: &[u8]) -> Result<(), StoreFault>
        requires { tried self.old < u64.MAX }
        ensures tried { tried self.new ≡ tried self.old + 1 }
        ensures failed { failed self.new ≡ failed self.old + (if is_ok result then 0 else 1) }
        ensures deposit { deposits self.old name.now octets.now result self.new };

    /// How many deposits were tried.
    fn calls(&self) -> u64
        ensures { result ≡ tried self.now };

    /// How many of them failed.
    fn failures(&self) -> u64
        ensures failures { result ≡ failed self.now }
        ensures at_most_calls { result ≤ tried self.now };
}
