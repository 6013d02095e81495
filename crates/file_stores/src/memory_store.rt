ghost use Rattle.std.specs.Prelude.{◌≡◌, [], IfOk};

use crate::filestore::{Filestore, StoreFault};
use cfdp_types::Octets;
use std::alloc::{AllocError, Global};
use std::marker::Model;

/// A stored file.
#[derive(Debug, Drop, PartialEq, Eq)]
pub struct StoredFile {
    pub name: Octets,
    pub octets: Octets,
}

/// A store that keeps all files in memory, in the order of their deposits.
#[derive(Debug, Drop)]
pub struct MemoryStore {
    files: Vec<StoredFile>,
    calls: u64,
    failures: u64,
    alloc: Global,
}

impl Model for MemoryStore {
    ghost use Rattle.std.specs.Prelude.{◌≤◌};
    ghost use Rattle.file_stores.specs.MemoryStore.{MemoryStoreValue};

    ghost Value = { MemoryStoreValue };

    ghost view = { λ s. record { files = s.files.items; calls = s.calls; failures = s.failures } };

    ghost invariant = { λ s. s.failures ≤ s.calls };
}

impl MemoryStore {
    /// An empty store.
    pub fn new(alloc: Global) -> MemoryStore
        ensures { result ≡ record { files = []; calls = 0; failures = 0 } }
    {
        MemoryStore {
            files: Vec::new(alloc),
            calls: 0,
            failures: 0,
            alloc,
        }
    }

    /// The files, in the order of their deposits.
    pub fn files(&self) -> &[StoredFile]
        ensures { result.now ≡ self.now.files }
    {
        &self.files
    }
}

impl Filestore for MemoryStore {
    ghost use Rattle.file_stores.specs.MemoryStore.{Deposits};

    ghost tried = { λ store. store.calls };

    ghost failed = { λ store. store.failures };

    ghost deposits = { Deposits };

    fn deposit(&mut self, name: &[u8], octets: &[u8]) -> Result<(), StoreFault> {
        self.calls += 1;
        let file = match stored_file(self.alloc, name, octets) {
            Ok(file) => file,
            Err(AllocError) => {
                self.failures += 1;
                return Err(StoreFault::Failed);
            }
        };
        if self.files.push(file).is_err() {
            self.failures += 1;
            return Err(StoreFault::Failed);
        }
        Ok(())
    }

    fn calls(&self) -> u64 {
        self.calls
    }

    fn failures(&self) -> u64 {
        self.failures
    }
}

// A file with copies of a name and of octets.
fn stored_file(alloc: Global, name: &[u8], octets: &[u8]) -> Result<StoredFile, AllocError>
    ensures { IfOk result (λ file. file ≡ record { name = name.now; octets = octets.now }) }
{
    Ok(StoredFile {
        name: Octets::from_slice(alloc, name)?,
        octets: Octets::from_slice(alloc, octets)?,
    })
}
